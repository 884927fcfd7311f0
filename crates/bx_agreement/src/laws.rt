//! The laws, one for each event.

ghost use Rattle.std.specs.Prelude.{◌≡◌, ◌≢◌, ℕ, ◌+◌, ◌<◌, ◌≤◌, ◌⊎◌, Bool, IsTrue, None, Option, Some};
ghost use Rattle.bx_answers.specs.Handling.{Handles, caught_up};
ghost use Rattle.bx_facts.specs.Chains.{IsNext, IsPlace, last};
ghost use Rattle.bx_global.specs.declared.change.Change.{Change};
ghost use Rattle.bx_global.specs.declared.held.Held.{Held};
ghost use Rattle.bx_global.specs.declared.state.GlobalState.{GlobalState};
ghost use Rattle.bx_packets.specs.declared.message.Message.{Message};
ghost use Rattle.bx_agreement.specs.Cells.{CatchUp, KnowsFirst, opening};
ghost use Rattle.bx_agreement.specs.Events.{Decides, Machine, HistoryStands, Turns};
ghost use Rattle.bx_agreement.specs.History.{ComesBy, ComesNext, History, IsChosen, Promised};
ghost use Rattle.bx_agreement.specs.Passing.{MayCome, answered};
ghost use Rattle.bx_agreement.specs.Round.{Counts, Round, prepared, sending};
ghost use Rattle.bx_agreement.specs.Sound.{HasTwo, IsAhead, IsCell, IsLevel, IsSound, Picks, Puts, ReadsAs, with_change, with_proposal, with_state};

/// Two states of one index that were chosen are one.
pub fn one_of_each()
    ensures { (h : History) (cells : ℕ → Option Held) (s t : GlobalState) → IsSound h cells → IsChosen h.proposals h.votes s → IsChosen h.proposals h.votes t → s.index ≡ t.index → s ≡ t }
{}

/// What two cells or more are read as is the last state of the chain, or what a change that was handed in makes of it.
pub fn cells_are_read_as_the_next_state()
    ensures { (h : History) (cells seen : ℕ → Option Held) (k l : ℕ) (one other : Held) (s : GlobalState) → IsSound h cells → ((n : ℕ) (held : Held) → seen n ≡ Some held → cells n ≡ Some held)
        → HasTwo seen k l one other → ReadsAs seen s → IsNext h.proposed (last h.chain) s }
{}

/// The same of cells some of which are still as they were found: those that are no more decide what is read.
pub fn found_cells_are_read()
    ensures ahead { (h : History) (cells seen raw : ℕ → Option Held) (k l n t : ℕ) (one other held their : Held) (touched : ℕ → Bool) → IsSound h cells → ((n : ℕ) (held : Held) → seen n ≡ Some held → cells n ≡ Some held)
        → HasTwo seen k l one other → CatchUp h.chain.first raw seen (λ m. IsTrue (touched m)) → raw t ≡ Some their → h.chain.first.index ≤ their.decided.index → IsAhead raw n held → IsNext h.proposed (last h.chain) held.accepted }
    ensures level { (h : History) (cells seen raw : ℕ → Option Held) (k l n : ℕ) (one other held : Held) (touched : ℕ → Bool) → IsSound h cells → ((n : ℕ) (held : Held) → seen n ≡ Some held → cells n ≡ Some held)
        → HasTwo seen k l one other → CatchUp h.chain.first raw seen (λ m. IsTrue (touched m)) → seen n ≡ Some held → h.chain.first.index ≤ held.decided.index → IsLevel raw n held → held.decided ≡ last h.chain }
{}

/// Cells that know the first state, and have accepted nothing, are sound where nothing was sent.
pub fn cells_begin()
    ensures sound { (found : ℕ) (first : GlobalState) (cells : ℕ → Option Held) → ((n : ℕ) (held : Held) → cells n ≡ Some held → KnowsFirst first held) → IsSound (opening found first) cells }
    ensures found { (first : GlobalState) (held : Held) → KnowsFirst first (caught_up first held) }
{}

/// What a replica holds after a message may stand in its cell before it has answered.
pub fn a_replica_is_put()
    ensures cell { (h : History) (n : ℕ) (held new : Held) (message : Message) (answer : Option Message) → IsCell h n held → MayCome h message → Handles held message new answer → IsCell h n new }
    ensures sound { (h : History) (old new : ℕ → Option Held) (n : ℕ) (held : Held) → IsSound h old → Puts n held old new → IsCell h n held → IsSound h new }
{}

/// A replica takes a message, and has answered.
pub fn a_replica_answers()
    ensures { (h : History) (old cells : ℕ → Option Held) (machines : ℕ → Machine) (n : ℕ) (held new : Held) (message : Message) (answer : Option Message) → HistoryStands h old machines → n < 3 → old n ≡ Some held
        → Puts n new old cells → MayCome h message → Handles held message new answer → HistoryStands (answered n answer h) cells machines }
{}

/// A proposer that has a promise of another replica too sends its accept.
pub fn a_proposer_sends()
    ensures { (h : History) (cells : ℕ → Option Held) (old new : ℕ → Machine) (me : ℕ) (round : Round) (p q : Promised) (s : GlobalState) (change : Change) → ComesBy h.chain h.proposed change s → HistoryStands h cells old
        → (old me).out ≡ Some round → round.sent ≡ None → round.promise ≡ Some p → Counts h round q → p.replica ≢ q.replica → Picks p q round.own s
        → Turns me (record { boot = (old me).boot; seen = (old me).seen; known = (old me).known; out = Some (sending s round) }) old new → HistoryStands (with_proposal round.ballot s change h) cells new }
{}

/// A state that was chosen is a place of the chain, or the chain grows by it.
pub fn a_choice_is_known()
    ensures { (h : History) (cells : ℕ → Option Held) (machines : ℕ → Machine) (s : GlobalState) (change : Change) → HistoryStands h cells machines → IsChosen h.proposals h.votes s → ComesBy h.chain h.proposed change s
        → Decides h h cells machines s ⊎ Decides h (with_state change h) cells machines s }
{}

/// A change is handed in.
pub fn a_change_is_handed_in()
    ensures { (h : History) (cells : ℕ → Option Held) (machines : ℕ → Machine) (change : Change) → HistoryStands h cells machines → HistoryStands (with_change change h) cells machines }
{}

/// A proposer begins a round, whose number is one above the greatest that it has seen.
pub fn a_proposer_prepares()
    ensures { (h : History) (cells : ℕ → Option Held) (old new : ℕ → Machine) (me : ℕ) (own : GlobalState) → HistoryStands h cells old → ComesNext h.chain h.proposed own
        → Turns me (record { boot = (old me).boot; seen = (old me).seen + 1; known = (old me).known; out = Some (prepared me (old me).boot (old me).seen own) }) old new → HistoryStands h cells new }
{}

/// A proposer learns a state, and drops its round.
pub fn a_state_is_learned()
    ensures { (h : History) (cells : ℕ → Option Held) (old new : ℕ → Machine) (me : ℕ) (s : GlobalState) → HistoryStands h cells old → IsPlace h.chain s
        → Turns me (record { boot = (old me).boot; seen = (old me).seen; known = s; out = None }) old new → HistoryStands h cells new }
{}

/// A proposer starts again with a greater boot.
pub fn a_proposer_starts_again()
    ensures { (h : History) (cells : ℕ → Option Held) (old new : ℕ → Machine) (me later : ℕ) (first : GlobalState) → HistoryStands h cells old → (old me).boot < later → IsPlace h.chain first
        → Turns me (record { boot = later; seen = 0; known = first; out = None }) old new → HistoryStands h cells new }
{}
