ghost use Rattle.std.specs.Prelude.{ℕ, ◌≡◌, ◌≤◌, ◌<◌, ◌+◌, ◌*◌, ◌++◌, ◌∷◌, [], length, List, slice_index};
ghost use Rattle.tw_base.specs.declared.message.Chan.{Chan};
ghost use Rattle.tw_base.specs.declared.entry.Entry.{Entry};
ghost use Rattle.tw_base.specs.Shape.{handler_budget_of};
ghost use Rattle.mini_asm.specs.Run.{first_words};
ghost use Rattle.dsm_runs.specs.Setups.{IsSetup, Setup, asked, size_of};
ghost use Rattle.dsm_runs.specs.Locals.{first};
ghost use Rattle.dsm_runs.specs.Events.{word_here};
ghost use Rattle.tw_base.specs.Lists.{Each};
ghost use Rattle.dsm_runs.specs.Worlds.{event_of, IsEnabled, IsQuiet, Runs, Step, start, Wires, World};
ghost use Rattle.dsm_runs.specs.Replays.{Course, ReplaysOne, Replays};
ghost use Rattle.dsm_runs.specs.Merges.{Agrees, AllReplay, IsJoined, IsMerge, joined, merged};
ghost use Rattle.dsm_runs.specs.Laws.{IsLog, IsNumbered, IsOn, IsWire};
ghost use Rattle.dsm_runs.specs.Schedules.{Settles};
ghost use Rattle.dsm_runs.specs.Shown.{AsksWell, DeliveriesTakeFronts, HandlersHoldNobody, OthersTakeNothing};
ghost use Rattle.dsm_runs.specs.Shown.{RefusedBlocksAreWithin};
ghost use Rattle.dsm_runs.specs.Tests.{is_enabled};
ghost use Rattle.std.specs.Bool.{Decides};
ghost use Rattle.mini_asm.specs.declared.cpu.Cpu.{Cpu};
ghost use Rattle.tw_base.specs.declared.entry.Event.{Event};
ghost use Rattle.dsm_runs.specs.Flat.{DueStepsAreFlat, IsBeside, flat_start};
ghost use Rattle.dsm_runs.specs.Invariants.{Bounded, EnabledEventsStep, EventsKeepNodes, FailedNodesAreOver, FailedNodesStay};
ghost use Rattle.dsm_runs.specs.Invariants.{LogsKeepNodes, NodesStartSound, RunsKeepTheirState, StepsKeepTheirState};

/// Where each node is what the replay of its log makes of it, and on each wire what was taken and then what is left is what
/// was sent, the merge of the logs is a run from the start. It reaches these nodes, with what is left on the wires.
///
/// Stamps are enough to merge by. A node's stamps rise, and the event that takes a message has a later stamp than the event
/// that sent it; so whatever an event may depend on stands before it in the merge, and events that stand otherwise than they
/// happened do not depend on each other (Leslie Lamport, Time, Clocks, and the Ordering of Events in a Distributed System,
/// 1978). The number of the node puts equal stamps in some order, and any order does.
pub fn merged_logs_are_a_run()
    ensures { (s : Setup) (logs : ℕ → List Entry) (journal : List Entry) (ends : ℕ → Course) (left : Wires) →
        AllReplay s logs ends → Agrees s.shape.nodes ends left → IsMerge s.shape.nodes logs journal →
        (g : World) × Runs s (start s) journal g × IsJoined s.shape.nodes ends left g }
{}

/// Where no event is enabled on these nodes and what is left, the state that the merged logs reach is quiet.
pub fn quiet_nodes_end_a_run()
    ensures { (s : Setup) (ends : ℕ → Course) (left : Wires) (g : World) →
        IsJoined s.shape.nodes ends left g → IsQuiet s (joined ends left) → IsQuiet s g }
{}

/// A journal is a run to one state.
pub fn run_has_one_end()
    ensures { (s : Setup) (journal : List Entry) (g h : World) →
        Runs s (start s) journal g → Runs s (start s) journal h → g ≡ h }
{}

/// A log and what was taken determine the node and what it sent.
pub fn log_has_one_course()
    ensures { (s : Setup) (i : ℕ) (log : List Entry) (a b : Course) → Replays s i log a → Replays s i log b →
        ((f : ℕ) (c : Chan) → a.took f c ≡ b.took f c) → a ≡ b }
{}

/// Stamps rise in a log. What its node sent on a wire is numbered from 0, names the wire, and has stamps of entries.
pub fn logs_are_sound()
    ensures log { (s : Setup) (i : ℕ) (log : List Entry) (a : Course) → Replays s i log a → IsLog i log }
    ensures numbers { (s : Setup) (i : ℕ) (log : List Entry) (a : Course) → Replays s i log a →
        (t : ℕ) (c : Chan) → IsNumbered (a.sent t c) }
    ensures names { (s : Setup) (i : ℕ) (log : List Entry) (a : Course) → Replays s i log a →
        (t : ℕ) (c : Chan) → Each (IsOn i t c log) (a.sent t c) }
{}

/// A run has at most as many events as the budgets of its nodes allow, and no stamp and no clock passes their number.
pub fn runs_are_short()
    ensures events { (s : Setup) (journal : List Entry) (g : World) → Runs s (start s) journal g →
        length journal ≤ s.shape.nodes * (s.shape.budget + handler_budget_of s.shape) }
    ensures stamps { (s : Setup) (journal : List Entry) (g : World) → Runs s (start s) journal g →
        Each (λ e. e.stamp ≤ length journal) journal }
    ensures state { (s : Setup) (journal : List Entry) (g : World) → Runs s (start s) journal g → Bounded s (length journal) g }
{}

/// A node's log goes on by the entry of each event that it makes.
pub fn logs_go_on()
    ensures { (s : Setup) (i : ℕ) (log : List Entry) (a b : Course) (e : Entry) →
        Replays s i log a → ReplaysOne s i a e b → Replays s i (log ++ e ∷ []) b }
{}

/// A run goes on from where it got.
pub fn runs_go_on()
    ensures { (s : Setup) (first second : List Entry) (g h : World) →
        Runs s (start s) first g → Runs s g second h → Runs s (start s) (first ++ second) h }
{}

/// There is one merge of the logs of the nodes.
pub fn logs_have_one_merge()
    ensures some { (n : ℕ) (logs : ℕ → List Entry) → ((i : ℕ) → i < n → IsLog i (logs i)) → IsMerge n logs (merged n logs) }
    ensures one { (n : ℕ) (logs : ℕ → List Entry) (first second : List Entry) →
        IsMerge n logs first → IsMerge n logs second → first ≡ second }
{}

/// A step makes an enabled event, and an event in a state gives one entry and leads to one state.
pub fn events_have_one_step()
    ensures enabled { (s : Setup) (g : World) (e : Entry) (h : World) → Step s g e h → IsEnabled s g (event_of e) }
    ensures entry { (s : Setup) (g : World) (e f : Entry) (x y : World) →
        event_of e ≡ event_of f → Step s g e x → Step s g f y → e ≡ f }
    ensures state { (s : Setup) (g : World) (e : Entry) (x y : World) → Step s g e x → Step s g e y → x ≡ y }
{}

/// In a run each message on a wire names the wire, and their numbers go up to that of the next.
pub fn wires_are_sound()
    ensures { (s : Setup) (journal : List Entry) (g : World) → Runs s (start s) journal g →
        (f t : ℕ) (c : Chan) → IsWire f t c (g.next f t c) (g.wires f t c) }
{}

/// Each node's copy starts with the words that the flat machine starts with.
pub fn nodes_start_with_the_flat_words()
    ensures { (s : Setup) (i address : ℕ) →
        IsSetup s → address < size_of s → word_here s (first s i).blocks address
        ≡ slice_index (first_words (size_of s) s.init) address }
{}

/// A schedule is one run, and ends in a quiet state.
pub fn schedules_are_one_run()
    ensures run { (s : Setup) (stride t : ℕ) (g : World) (es : List Entry) (h : World) →
        Settles s stride t g es h → Runs s g es h }
    ensures quiet { (s : Setup) (stride t : ℕ) (g : World) (es : List Entry) (h : World) →
        Settles s stride t g es h → IsQuiet s h }
    ensures one { (s : Setup) (stride t : ℕ) (g : World) (es fs : List Entry) (h k : World) →
        Settles s stride t g es h → Settles s stride t g fs k → (es ≡ fs) × (h ≡ k) }
{}

/// A run starts beside the flat machine. Where what a step read is the flat machine's word, that does the same.
pub fn due_steps_are_flat()
    ensures start { (s : Setup) → IsBeside s (start s) (flat_start s) }
    ensures step { DueStepsAreFlat }
{}

/// In every state of a run the blocks of each node fit the protocol, have their words and know where they are, and each
/// message on a wire or deferred is one of the protocol, for a block of the machine. A node that failed makes no event,
/// and stays as it is however the run goes on.
pub fn what_every_run_keeps()
    ensures states { RunsKeepTheirState }
    ensures steps { StepsKeepTheirState }
    ensures over { FailedNodesAreOver }
    ensures stay { FailedNodesStay }
{}

/// A node starts with blocks that fit, and each event of it keeps them so, where the message that it takes is one of the
/// protocol that came to it: what it sends is on its way. So it is after all of its log.
pub fn nodes_stay_sound()
    ensures start { NodesStartSound }
    ensures events { EventsKeepNodes }
    ensures logs { LogsKeepNodes }
{}

/// In a state of a run an event that is enabled has a step.
pub fn enabled_events_step()
    ensures { EnabledEventsStep }
{}

/// What a step shows: a delivery takes the front of the wire that its entry names, and other events take nothing; an
/// instruction asks for addresses of the memory alone, so a block that refuses is one of the machine; a handler holds no node
/// that was not held. And the tests say whether an event is enabled.
pub fn what_steps_show()
    ensures deliveries { DeliveriesTakeFronts }
    ensures others { OthersTakeNothing }
    ensures asked { (s : Setup) (i : ℕ) (cpu : Cpu) → AsksWell (size_of s) (asked s i cpu) }
    ensures refused { RefusedBlocksAreWithin }
    ensures holds { HandlersHoldNobody }
    ensures enabled { (s : Setup) (g : World) (e : Event) → Decides (is_enabled s g e) (IsEnabled s g e) }
{}
