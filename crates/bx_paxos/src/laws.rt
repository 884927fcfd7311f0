//! The laws, one for each event.

ghost use Rattle.std.specs.Prelude.{◌≡◌, ℕ, ◌+◌, ◌^◌, ◌<◌, ◌≤◌, ◌⊎◌, List, ◌++◌, Option};
ghost use Rattle.bx_answers.specs.Handling.{Handles, first_held};
ghost use Rattle.bx_answers.specs.Replies.{letters_of};
ghost use Rattle.bx_base.specs.declared.names.Actor.{Actor};
ghost use Rattle.bx_calls.specs.Calls.{KeepsAll, KeepsSure};
ghost use Rattle.bx_cell.specs.Cells.{HasEither, next};
ghost use Rattle.bx_cell.specs.Halves.{Found};
ghost use Rattle.bx_cell.specs.Images.{EachSure, HasAllSure};
ghost use Rattle.bx_disk.specs.Disks.{Disks, Image};
ghost use Rattle.bx_facts.specs.Chains.{AreLegal, IsNext, IsPlace, last};
ghost use Rattle.bx_facts.specs.Disks.{Crashes, SameLabels, SameLengths, SameReplicas};
ghost use Rattle.bx_facts.specs.Inputs.{AreAmong, IsRegisters};
ghost use Rattle.bx_facts.specs.Machines.{IsMachine};
ghost use Rattle.bx_facts.specs.Pasts.{RegisterPast, found_register, opening_register, proposing, register_crashed, register_restarted};
ghost use Rattle.bx_global.specs.Allowed.{IsAllowed, IsChange};
ghost use Rattle.bx_global.specs.Bytes.{IsHeld, held_text};
ghost use Rattle.bx_global.specs.Table.{IsLegal};
ghost use Rattle.bx_global.specs.declared.change.Change.{Change};
ghost use Rattle.bx_global.specs.declared.held.Held.{Held};
ghost use Rattle.bx_global.specs.declared.state.GlobalState.{GlobalState};
ghost use Rattle.bx_packets.specs.Messages.{IsStateOf};
ghost use Rattle.bx_packets.specs.declared.message.Message.{Message};
ghost use Rattle.bx_post.specs.declared.packets.Letter.{Letter};
ghost use Rattle.bx_proposer.specs.Letters.{asks_of, letters_of as sent_of};
ghost use Rattle.bx_proposer.specs.Names.{number_of};
ghost use Rattle.bx_rounds.specs.Courses.{started, stopped};
ghost use Rattle.bx_rounds.specs.Steps.{Hears, Learns, Proposes, Ticks};
ghost use Rattle.bx_rounds.specs.declared.course.Course.{Course};
ghost use Rattle.bx_rounds.specs.declared.course.Move.{Move};
ghost use Rattle.bx_paxos.specs.Counted.{IsCounted};
ghost use Rattle.bx_paxos.specs.Fits.{SpellsSent, Fits, RegisterGoes, IsPutOn, KnowsCell, Turned, Voters, devices_of, going};
ghost use Rattle.bx_paxos.specs.Reading.{AreMade, ReadsState};
ghost use Rattle.bx_paxos.specs.Shown.{HasFound, StandsAsFound};

/// What each machine knows is a place of the chain, whose changes were legal, and each state of which meets the conditions; and each image is
/// read as the last state, or as what a change that was handed in makes of it, and as one state alone.
pub fn a_past_tells()
    ensures place { (v : Voters) (x : Disks) (past : RegisterPast) (me : ℕ) → Fits v x past → IsPlace past.chain (v.courses me).known }
    ensures legal { (v : Voters) (x : Disks) (past : RegisterPast) → Fits v x past → AreLegal past.chain.first past.chain.changes }
    ensures allowed { (v : Voters) (x : Disks) (past : RegisterPast) (s : GlobalState) → Fits v x past → IsPlace past.chain s → IsAllowed s }
    ensures one { (made : GlobalState) (sizes : List ℕ) (image : Image) (s other : GlobalState) → ReadsState made sizes image s → ReadsState made sizes image other → other ≡ s }
    ensures reads { (v : Voters) (x : Disks) (past : RegisterPast) (image : Image) (s : GlobalState) → Fits v x past → HasAllSure x image → ReadsState v.first x.sizes image s → IsNext past.proposed (last past.chain) s }
{}

/// Letters may be lost, come again and in any order, and those of other layers don't matter. Other disks don't matter, of whatever length. A disk may crash, and
/// be synced.
pub fn disks_and_letters_may_change()
    ensures loses { (v : Voters) (x : Disks) (past : RegisterPast) (letters : List Letter) → Fits v x past → AreAmong IsRegisters letters past.letters → Fits v x (record past { letters = letters }) }
    ensures elsewhere { (v : Voters) (x y : Disks) (past : RegisterPast) → Fits v x past → SameLengths x y → SameReplicas x y → SameLabels x y → Fits v y past }
    ensures survives { (v : Voters) (x y : Disks) (past : RegisterPast) (n : ℕ) → Fits v x past → SameLengths x y → Crashes n x y → Fits v y past }
    ensures syncs { (v : Voters) (x y : Disks) (past : RegisterPast) (n : ℕ) → Fits v x past → KeepsAll x y n → Fits v y past }
{}

/// A replica takes a letter that may be under way; its cell has what it holds then, and its answer is under way.
pub fn a_replica_answers()
    ensures { (v : Voters) (x y : Disks) (past : RegisterPast) (n : ℕ) (held now : Held) (found after : Found) (letter : Letter) (message : Message) (answer : Option Message) → Fits v x past → n < 3
        → KnowsCell v x n held found → KnowsCell v y n now after → IsPutOn found after → KeepsSure x y n 1 20 → SpellsSent v past letter message → Handles held message now answer
        → Fits v y (record past { letters = past.letters ++ letters_of n letter.from answer }) }
{}

/// A replica is stopped inside its put, or a fault stops it: what images have is sound by what was sent before.
pub fn a_replica_is_stopped()
    ensures faults { (v : Voters) (x y : Disks) (past : RegisterPast) (n : ℕ) (held now : Held) (found : Found) (letter : Letter) (message : Message) → Fits v x past → n < 3 → KnowsCell v x n held found → IsHeld (devices_of v) now
        → SpellsSent v past letter message → (now ≡ held) ⊎ ((answer : Option Message) × Handles held message now answer) → SameLengths x y → EachSure y (HasEither x n 1 found (next found (held_text now))) → Fits v y past }
    ensures moment { (v : Voters) (x : Disks) (past : RegisterPast) (n : ℕ) (held now : Held) (found : Found) (letter : Letter) (message : Message) (image : Image) (s : GlobalState) → Fits v x past → n < 3 → KnowsCell v x n held found → IsHeld (devices_of v) now
        → SpellsSent v past letter message → (now ≡ held) ⊎ ((answer : Option Message) × Handles held message now answer) → HasEither x n 1 found (next found (held_text now)) image → ReadsState v.first x.sizes image s → IsNext past.proposed (last past.chain) s }
{}

/// A proposer takes a letter that may be under way, or a tick: the chain has one change more that was handed in, or none, and what it sends is
/// under way. A change more only where the proposer knows what it makes then.
pub fn a_proposer_takes()
    ensures hears { (v : Voters) (x : Disks) (past : RegisterPast) (at : Actor) (others : List Actor) (letter : Letter) (message : Message) (course : Course) (courses : ℕ → Course) (move : Move) → Fits v x past → number_of at < 2 ^ 32
        → SpellsSent v past letter message → Hears (number_of at) (v.courses (number_of at)) letter.from message course move → Turned (number_of at) course v.courses courses → RegisterGoes (going v courses) x past course.known (sent_of at others course move) }
    ensures ticks { (v : Voters) (x : Disks) (past : RegisterPast) (at : Actor) (others : List Actor) (course : Course) (courses : ℕ → Course) (move : Move) → Fits v x past → number_of at < 2 ^ 32
        → Ticks (number_of at) (v.courses (number_of at)) course move → Turned (number_of at) course v.courses courses → RegisterGoes (going v courses) x past course.known (sent_of at others course move) }
{}

/// A legal change is handed in and proposed.
pub fn a_change_is_proposed()
    ensures { (v : Voters) (x : Disks) (past : RegisterPast) (at : Actor) (others : List Actor) (change : Change) (course : Course) (courses : ℕ → Course) (move : Move) → Fits v x past → number_of at < 2 ^ 32
        → IsChange change → IsLegal (v.courses (number_of at)).known change → Proposes (number_of at) (v.courses (number_of at)) change course move → Turned (number_of at) course v.courses courses
        → Fits (going v courses) x (record (proposing past change) { letters = past.letters ++ sent_of at others course move }) }
{}

/// A machine stops.
pub fn a_machine_stops()
    ensures { (v : Voters) (x : Disks) (past : RegisterPast) (who : Actor) (courses : ℕ → Course) → Fits v x past → Turned (number_of who) (stopped (v.courses (number_of who))) v.courses courses → Fits (going v courses) x (register_crashed past who) }
{}

/// A machine of a cluster of at most sixteen nodes starts again, with a boot above those that it had.
pub fn a_machine_starts()
    ensures { (v : Voters) (x : Disks) (past : RegisterPast) (who : Actor) (boot reading : ℕ) (courses : ℕ → Course) → Fits v x past → v.nodes ≤ 16 → IsMachine v.nodes who → past.boots who < boot → boot < 2 ^ 64
        → Turned (number_of who) (started boot reading v.first) v.courses courses → Fits (going v courses) x (record (register_restarted past who boot) { letters = past.letters ++ asks_of who }) }
{}

/// A proposer is told a state of the chain, as its replica knows one.
pub fn a_machine_is_told()
    ensures { (v : Voters) (x : Disks) (past : RegisterPast) (me : ℕ) (s : GlobalState) (course : Course) (courses : ℕ → Course) → Fits v x past → IsPlace past.chain s → IsStateOf (devices_of v) s → Learns (v.courses me) s course
        → Turned me course v.courses courses → Fits (going v courses) x past }
{}

/// Where each replica's cell has the first state, and nothing was done, the past of a new volume fits.
pub fn the_beginning_fits()
    ensures { (v : Voters) (x : Disks) → IsAllowed v.first → AreMade v.origins → EachSure x (λ image. (n : ℕ) → n < 3 → IsCounted v.first (v.origins n) (image n) (first_held v.first)) → ((me : ℕ) → v.courses me ≡ started 0 0 v.first)
        → Fits v x (opening_register v.first) }
{}

/// Where the cells of replicas stand as they were found, which told the first state, and nothing was done, the past of a volume that was found
/// fits: no machine has a boot above the one found.
pub fn a_found_volume_fits()
    ensures { (v : Voters) (x : Disks) (was : ℕ → Option Held) (boot : ℕ) → IsAllowed v.first → HasFound v.first v.origins was → EachSure x (StandsAsFound v.first v.origins was x.sizes) → ((me : ℕ) → v.courses me ≡ started 0 0 v.first)
        → Fits v x (found_register v.first boot) }
{}
