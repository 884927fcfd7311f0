//! Machines that have nothing to do with devices.

ghost use Rattle.std.specs.Prelude.{ℕ, Bool, List};
ghost use Rattle.bx_base.specs.declared.names.Actor.{Actor};
ghost use Rattle.bx_disk.specs.Disks.{Disks};
ghost use Rattle.bx_facts.specs.Writes.{StorePast};
ghost use Rattle.bx_mirror_client.specs.declared.asking.Asking.{Asking};
ghost use Rattle.bx_mirror_member.specs.Standing.{MemberView};
ghost use Rattle.bx_mirror_cluster.specs.Beside.{SameServing, SaysSame, saying, with_members};
ghost use Rattle.bx_mirror_cluster.specs.Fitting.{IsSettledOn, Keeps, Parts, StandsOn, WillReadOn};

/// Members and streams go on fitting the past whatever is said in it of other machines, and so does what was settled, stood or is read.
pub fn others_do_not_matter()
    ensures keeps { (parts : Parts) (x : Disks) (past : StorePast) (members : ℕ → MemberView) (knew boots : Actor → ℕ) (down : Actor → Bool) → SaysSame parts.made past.told knew boots down → SameServing parts members → Keeps parts x past
        → Keeps (with_members parts members) x (saying past knew boots down) }
    ensures settles { (parts : Parts) (x : Disks) (past : StorePast) (members : ℕ → MemberView) (knew boots : Actor → ℕ) (down : Actor → Bool) (device sector : ℕ) (content : List ℕ) → SaysSame parts.made past.told knew boots down → SameServing parts members
        → IsSettledOn parts x past device sector content → IsSettledOn (with_members parts members) x (saying past knew boots down) device sector content }
    ensures stands { (parts : Parts) (x : Disks) (past : StorePast) (members : ℕ → MemberView) (knew boots : Actor → ℕ) (down : Actor → Bool) (device sector : ℕ) (content : List ℕ) (index : ℕ) → SaysSame parts.made past.told knew boots down → SameServing parts members
        → StandsOn parts x past device sector content index → StandsOn (with_members parts members) x (saying past knew boots down) device sector content index }
    ensures reads { (parts : Parts) (x : Disks) (past : StorePast) (members : ℕ → MemberView) (knew boots : Actor → ℕ) (down : Actor → Bool) (reader : ℕ) (read : Asking) (sector : ℕ) (content : List ℕ) → SaysSame parts.made past.told knew boots down
        → SameServing parts members → WillReadOn parts x past reader read sector content → WillReadOn (with_members parts members) x (saying past knew boots down) reader read sector content }
{}
