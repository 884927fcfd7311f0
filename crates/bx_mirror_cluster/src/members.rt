//! What a member does, as events of a store whose members and streams fit what was done with it.

ghost use Rattle.std.specs.Prelude.{◌≡◌, ◌≢◌, ℕ, ◌-◌, ◌<◌, ◌++◌, Bool, false, true, List, None, Option};
ghost use Rattle.bx_base.specs.declared.names.Actor.TheVariants.{Member};
ghost use Rattle.bx_calls.specs.Calls.{HasSure};
ghost use Rattle.bx_disk.specs.Disks.{Disks, Image, Stays};
ghost use Rattle.bx_facts.specs.Chains.{last};
ghost use Rattle.bx_facts.specs.Disks.{SameMemberLengths};
ghost use Rattle.bx_facts.specs.Inputs.{IsComing as Arrives, IsSteady};
ghost use Rattle.bx_facts.specs.Writes.{HasSettled, StorePast, member_disk, store_failed, store_heard, store_restarted, store_room, store_with};
ghost use Rattle.bx_facts.specs.declared.input.Input.{Input};
ghost use Rattle.bx_global.specs.declared.change.Change.{Change};
ghost use Rattle.bx_global.specs.declared.state.GlobalState.{GlobalState};
ghost use Rattle.bx_members.specs.Members.{HasMembers, KeepsMembers};
ghost use Rattle.bx_post.specs.declared.packets.Letter.{Letter};
ghost use Rattle.bx_records.specs.declared.runs.Run.{Run};
ghost use Rattle.bx_mirror_client.specs.Sends.{member_at};
ghost use Rattle.bx_mirror_member.specs.Acting.{IsCopiedHere, IsTaken};
ghost use Rattle.bx_mirror_member.specs.Standing.{MemberView, device_in, is_second, learned};
ghost use Rattle.bx_mirror_laws.specs.Steps.{PartlyTaken, PieceChanged};
ghost use Rattle.bx_mirror_packets.specs.declared.message.CopyBody.{CopyBody};
ghost use Rattle.bx_mirror_packets.specs.declared.message.WriteBody.{WriteBody};
ghost use Rattle.bx_mirror_server.specs.Sides.{letter_to, piece_from, side_of as side_by};
ghost use Rattle.bx_mirror_server.specs.Serving.{BringsOnly, Does};
ghost use Rattle.bx_mirror_server.specs.Working.{alone};
ghost use Rattle.bx_mirror_cluster.specs.Fitting.{IsSettledOn, Keeps, Parts};
ghost use Rattle.bx_mirror_cluster.specs.GoesFurther.{GoesFurther};
ghost use Rattle.bx_mirror_cluster.specs.MemberSteps.{IsFor, IsPieceIn, IsWriteIn, MayServe, with_serving};
ghost use Rattle.bx_mirror_cluster.specs.Starting.{IsBooted};

/// All that a member does in one event: it learns the state that it is handed, and takes what comes. Members and streams fit the past again, with its
/// letters and the change that it hands back, and what was settled, stood or is read goes on, where members write nothing else.
pub fn a_member_takes()
    ensures { (parts : Parts) (x y : Disks) (past : StorePast) (device : ℕ) (second : Bool) (known : GlobalState) (input : Input) (new : MemberView) (change : Option Change) (before after : List Letter) → Keeps parts x (store_with past before) → device < parts.made.devices
        → MayServe parts (store_with past before) (member_at device second) known → Arrives (past.told.letters ++ before) input → IsFor (Member (member_at device second)) input → IsSteady past.told.greatest input
        → ((disk sector : ℕ) → disk ≢ member_disk device second → Stays x y disk sector) → SameMemberLengths x y → Does (Unit {0}) known input (parts.members (member_at device second)) new change before after x y
        → GoesFurther parts (with_serving parts (member_at device second) new) x y (store_with past before) (store_with (store_heard past (Member (member_at device second)) known.index input change) after) }
{}

/// A disk fails during an event of a member, which has learned the state: nothing was written, or the write that came, or the piece of a copy, was cut
/// short. Members and streams fit the past again, and what was settled, stood or is read goes on, where members write nothing else.
pub fn a_disk_fails_a_member()
    ensures kept { (parts : Parts) (x y : Disks) (past : StorePast) (device : ℕ) (second : Bool) (before : List Letter) (known : GlobalState) (input : Input) → Keeps parts x (store_with past before) → device < parts.made.devices
        → MayServe parts (store_with past before) (member_at device second) known → Arrives (past.told.letters ++ before) input → IsFor (Member (member_at device second)) input → IsSteady past.told.greatest input
        → ((disk sector : ℕ) → disk ≢ member_disk device second → Stays x y disk sector) → SameMemberLengths x y
        → ((sector : ℕ) → y.reads (member_disk device second) sector ≡ x.reads (member_disk device second) sector) → ((sector : ℕ) → x.unsure (member_disk device second) sector ≡ false → y.unsure (member_disk device second) sector ≡ false)
        → GoesFurther parts (with_serving parts (member_at device second) (learned known (parts.members (member_at device second)))) x y (store_with past before) (store_with (store_heard past (Member (member_at device second)) known.index input None) before) }
    ensures cut { (parts : Parts) (x y : Disks) (past : StorePast) (device : ℕ) (second : Bool) (before : List Letter) (known : GlobalState) (input : Input) (reading : ℕ) (write : WriteBody) → Keeps parts x (store_with past before) → device < parts.made.devices
        → MayServe parts (store_with past before) (member_at device second) known → Arrives (past.told.letters ++ before) input → IsFor (Member (member_at device second)) input → IsSteady past.told.greatest input
        → ((disk sector : ℕ) → disk ≢ member_disk device second → Stays x y disk sector) → SameMemberLengths x y → IsWriteIn input reading write → IsTaken (learned known (parts.members (member_at device second))) reading write
        → PartlyTaken (device_in (learned known (parts.members (member_at device second)))) (letter_to (learned known (parts.members (member_at device second))) write) (side_by true (learned known (parts.members (member_at device second))) x) (side_by true (learned known (parts.members (member_at device second))) y)
        → GoesFurther parts (with_serving parts (member_at device second) (learned known (parts.members (member_at device second)))) x y (store_with past before) (store_with (store_heard past (Member (member_at device second)) known.index input None) before) }
    ensures piece { (parts : Parts) (x y : Disks) (past : StorePast) (device : ℕ) (second : Bool) (before : List Letter) (known : GlobalState) (input : Input) (piece : CopyBody) → Keeps parts x (store_with past before) → device < parts.made.devices
        → MayServe parts (store_with past before) (member_at device second) known → Arrives (past.told.letters ++ before) input → IsFor (Member (member_at device second)) input → IsSteady past.told.greatest input
        → ((disk sector : ℕ) → disk ≢ member_disk device second → Stays x y disk sector) → SameMemberLengths x y → IsPieceIn input piece → IsCopiedHere (learned known (parts.members (member_at device second))) piece
        → ((by : Bool) → PieceChanged (is_second (learned known (parts.members (member_at device second)))) (piece_from by piece) (side_by true (learned known (parts.members (member_at device second))) x) (side_by true (learned known (parts.members (member_at device second))) y))
        → GoesFurther parts (with_serving parts (member_at device second) (learned known (parts.members (member_at device second)))) x y (store_with past before) (store_with (store_heard past (Member (member_at device second)) known.index input None) before) }
{}

/// An event of a member is cut short, whatever comes: by a fault, and members and streams fit the past again, and what was settled, stood or is read goes
/// on; or by a crash at any moment, and the image that it leaves has what was settled.
pub fn an_event_is_cut()
    ensures fault { (parts : Parts) (x y : Disks) (past : StorePast) (device : ℕ) (second : Bool) (before : List Letter) (known : GlobalState) (input : Input) (runs : List Run) → Keeps parts x (store_with past before) → device < parts.made.devices
        → MayServe parts (store_with past before) (member_at device second) known → Arrives (past.told.letters ++ before) input → IsFor (Member (member_at device second)) input → IsSteady past.told.greatest input
        → BringsOnly (learned known (parts.members (member_at device second))) input runs → KeepsMembers (alone runs) 0 x y → ((disk sector : ℕ) → disk ≢ member_disk device second → Stays x y disk sector) → SameMemberLengths x y
        → GoesFurther parts (with_serving parts (member_at device second) (learned known (parts.members (member_at device second)))) x y (store_with past before) (store_with (store_heard past (Member (member_at device second)) known.index input None) before) }
    ensures image { (parts : Parts) (x : Disks) (past : StorePast) (device : ℕ) (second : Bool) (before : List Letter) (known : GlobalState) (input : Input) (runs : List Run) (image : Image) → Keeps parts x (store_with past before) → device < parts.made.devices
        → MayServe parts (store_with past before) (member_at device second) known → Arrives (past.told.letters ++ before) input → IsFor (Member (member_at device second)) input → IsSteady past.told.greatest input
        → BringsOnly (learned known (parts.members (member_at device second))) input runs → HasMembers (alone runs) 0 x image → HasSure x (member_disk device second) 1 (store_room parts.made - 1) image
        → HasSettled past.writes past.told.greatest (IsSettledOn parts x (store_with past before)) x (last past.told.chain) image }
{}

/// A member that is down starts again in a later boot, with its label; or its disk fails, and it stays down: members and streams go on fitting the
/// past, and what was settled, stood or is read goes on.
pub fn a_member_starts()
    ensures started { (parts : Parts) (x y : Disks) (past : StorePast) (device : ℕ) (second : Bool) (boot reading : ℕ) (member : MemberView) → Keeps parts x past → past.told.down (Member (member_at device second)) ≡ true
        → past.told.boots (Member (member_at device second)) < boot → IsBooted parts.made x y device second false boot member
        → GoesFurther parts (with_serving parts (member_at device second) member) x y past (store_restarted past (Member (member_at device second)) boot reading) }
    ensures failed { (parts : Parts) (x y : Disks) (past : StorePast) (device : ℕ) (second : Bool) (boot reading : ℕ) (member : MemberView) → Keeps parts x past → past.told.down (Member (member_at device second)) ≡ true
        → past.told.boots (Member (member_at device second)) < boot → IsBooted parts.made x y device second true boot member
        → GoesFurther parts (with_serving parts (member_at device second) member) x y past (store_failed past (Member (member_at device second)) boot reading) }
{}
