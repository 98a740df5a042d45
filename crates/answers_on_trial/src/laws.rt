ghost use Rattle.answers_on_trial.specs.Answers.{SerialAnswersStandTrial, ThreadAnswersStandTrial};

use trial_laws::reports_stand_trial;

/// A report of `serial` with its journal, put behind its input and the line `report`, is read, and is replayed for each number
/// of its events to what the run came to by then. Under each shipped protocol no rule of `audit` denies it.
pub fn serial_answers_stand_trial()
    ensures { SerialAnswersStandTrial }
{
    reports_stand_trial();
}

/// The same of a report of `run`, whatever the threads did.
pub fn thread_answers_stand_trial()
    ensures { ThreadAnswersStandTrial }
{
    reports_stand_trial();
}
