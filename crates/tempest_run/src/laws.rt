ghost use Rattle.tempest_run.specs.CallLaws.{InputIsAnswered, LengthIsRefused, OthersAreAnswered, StatusesSay};
ghost use Rattle.tempest_run.specs.CallLaws.{ValidTextsAreAnswered, WordsAreRefused};
ghost use Rattle.tempest_run.specs.Laws.{AnswerIsOne};
ghost use Rattle.tempest_run.specs.Refusals.{RefusalIsOfAKind, RefusalIsOne, TextIsNeverBoth, TextIsNoMemory};
ghost use Rattle.tempest_run.specs.Refusals.{TextIsValidOrRefused};

use compiled_meaning::one_code;
use counted_runs::counts_are_one;
use dsm_runs::schedules_are_one_run;
use stache_d_protocol::text_is_stache_d;
use stache_l_protocol::text_is_stache_l;
use stache_protocol::shipped_text_is_stache;
use teapot_parse::{
    given_lines_are_read, read_trees_are_given, refusals_are_exact, refusals_are_first,
    texts_have_text_lines,
};
use tempest_input::{input_is_valid_or_refused, layout_is_read_both_ways};
use tempest_trials::trials_are_one;

/// The status and what is written are a function of the words and the input, but for `run`.
pub fn answer_is_one()
    ensures { AnswerIsOne }
{
    schedules_are_one_run();
    counts_are_one();
    one_code();
    trials_are_one();
}

/// A text sets something up, or it is refused at one line for one reason, from its tokens to the rules of its protocol. It
/// is refused exactly for a reason of one of the kinds, of which each says that the kinds before it do not apply.
pub fn text_is_valid_or_refused()
    ensures some { TextIsValidOrRefused }
    ensures apart { TextIsNeverBoth }
    ensures one { RefusalIsOne }
    ensures kinds { RefusalIsOfAKind }
    ensures no_memory { TextIsNoMemory }
{
    input_is_valid_or_refused();
    layout_is_read_both_ways();
    texts_have_text_lines();
    read_trees_are_given();
    given_lines_are_read();
    refusals_are_first();
    refusals_are_exact();
    shipped_text_is_stache();
    text_is_stache_d();
    text_is_stache_l();
}

/// What each status of a call says of what was got and of what was written.
pub fn statuses_say()
    ensures { StatusesSay }
{}

/// A call in which no end failed refuses words that are no command, refuses an input that is too long, and answers any
/// other, unless memory ran out.
pub fn calls_that_do_not_fail_answer()
    ensures words { WordsAreRefused }
    ensures length { LengthIsRefused }
    ensures input { InputIsAnswered }
{}

/// A call in which no end failed answers each command, from a valid text where the command reads one: with status 0, or with a
/// report whose status says how the nodes of its run ended, or with the trial of a report, unless memory ran out.
pub fn commands_are_answered()
    ensures texts { ValidTextsAreAnswered }
    ensures others { OthersAreAnswered }
{}
