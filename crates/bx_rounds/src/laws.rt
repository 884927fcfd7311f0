//! What each step of a proposer is among the votes.

ghost use Rattle.std.specs.Prelude.{◌≡◌, ℕ, ◌<◌, Option};
ghost use Rattle.bx_agreement.specs.Events.{Machine, HistoryStands, Turns};
ghost use Rattle.bx_agreement.specs.History.{History};
ghost use Rattle.bx_agreement.specs.Passing.{MayPass};
ghost use Rattle.bx_agreement.specs.Sound.{with_change};
ghost use Rattle.bx_base.specs.declared.names.Actor.{Actor};
ghost use Rattle.bx_facts.specs.Chains.{IsPlace};
ghost use Rattle.bx_global.specs.Table.{IsLegal};
ghost use Rattle.bx_global.specs.declared.change.Change.{Change};
ghost use Rattle.bx_global.specs.declared.held.Held.{Held};
ghost use Rattle.bx_global.specs.declared.state.GlobalState.{GlobalState};
ghost use Rattle.bx_packets.specs.declared.message.Message.{Message};
ghost use Rattle.bx_rounds.specs.Agreement.{Agrees, IsProposing, MayTell, machine_of};
ghost use Rattle.bx_rounds.specs.Courses.{IsCourse, LeadsOn, started, stopped};
ghost use Rattle.bx_rounds.specs.Steps.{Hears, Proposes, Ticks};
ghost use Rattle.bx_rounds.specs.declared.course.Course.{Course};
ghost use Rattle.bx_rounds.specs.declared.course.Move.{Move};

/// A proposer that takes a message which may be under way, or a tick, keeps all sound: at most one accept was sent, or one change that was
/// handed in came into the chain.
pub fn a_message_is_heard()
    ensures hears { (h : History) (cells : ℕ → Option Held) (old new : ℕ → Machine) (me : ℕ) (c to : Course) (from : Actor) (message : Message) (move : Move) → HistoryStands h cells old → IsProposing h me c → MayPass h from message
        → Hears me c from message to move → Turns me (machine_of to) old new → Agrees h cells new me to }
    ensures ticks { (h : History) (cells : ℕ → Option Held) (old new : ℕ → Machine) (me : ℕ) (c to : Course) (move : Move) → HistoryStands h cells old → IsProposing h me c
        → Ticks me c to move → Turns me (machine_of to) old new → Agrees h cells new me to }
{}

/// So does one that proposes a legal change, once that was handed in.
pub fn a_change_is_proposed()
    ensures { (h : History) (cells : ℕ → Option Held) (old new : ℕ → Machine) (me : ℕ) (c to : Course) (change : Change) (move : Move) → HistoryStands h cells old → IsProposing h me c → IsLegal c.known change
        → Proposes me c change to move → Turns me (machine_of to) old new → HistoryStands (with_change change h) cells new × IsProposing (with_change change h) me to }
{}

/// So does one that stops, and one that starts again with a greater boot.
pub fn a_proposer_starts_again()
    ensures stops { (h : History) (cells : ℕ → Option Held) (old new : ℕ → Machine) (me : ℕ) (c to : Course) → HistoryStands h cells old → IsProposing h me c
        → to ≡ stopped c → Turns me (machine_of to) old new → HistoryStands h cells new × IsProposing h me to }
    ensures starts { (h : History) (cells : ℕ → Option Held) (old new : ℕ → Machine) (me : ℕ) (c to : Course) (later reading : ℕ) (first : GlobalState) → HistoryStands h cells old → IsProposing h me c
        → c.boot < later → IsPlace h.chain first → to ≡ started later reading first → Turns me (machine_of to) old new → HistoryStands h cells new × IsProposing h me to }
{}

/// What it sends may be under way then.
pub fn what_is_sent_may_pass()
    ensures { (h : History) (me : ℕ) (c : Course) → IsProposing h me c → MayTell h c }
{}

/// No step of a proposer forgets what it knew, and a proposal is out until what it knows rises.
pub fn steps_lead_on()
    ensures hears { (devices me : ℕ) (c new : Course) (from : Actor) (message : Message) (move : Move) → IsCourse devices c → Hears me c from message new move → LeadsOn c new }
    ensures ticks { (me : ℕ) (c new : Course) (move : Move) → Ticks me c new move → LeadsOn c new }
{}
