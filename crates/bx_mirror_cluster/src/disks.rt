//! Members that stop, and disks that change while their machines are down.

ghost use Rattle.std.specs.Prelude.{◌≡◌, ◌≢◌, ℕ, ◌+◌, ◌<◌, Bool, true, List};
ghost use Rattle.bx_base.specs.declared.names.Actor.TheVariants.{Member};
ghost use Rattle.bx_disk.specs.Disks.{Disks, Stays};
ghost use Rattle.bx_facts.specs.Chains.{last};
ghost use Rattle.bx_facts.specs.Disks.{Crashes, SameMemberLengths, SameMembers};
ghost use Rattle.bx_facts.specs.Writes.{StorePast, member_disk, store_crashed};
ghost use Rattle.bx_mirror_member.specs.Standing.{MemberView};
ghost use Rattle.bx_mirror_client.specs.Sends.{member_at};
ghost use Rattle.bx_mirror_client.specs.declared.asking.Asking.{Asking};
ghost use Rattle.bx_mirror_cluster.specs.Fitting.{IsSettledOn, IsSideAlone, Keeps, Parts, StandsOn, WillReadOn, row_of};
ghost use Rattle.bx_mirror_cluster.specs.Stopping.{Stops};

/// Members and streams go on fitting the past where the disk of a member that is down crashes, or is replaced while its device needs the other member
/// alone; and where no member's disk changes.
pub fn a_disk_changes()
    ensures survives { (parts : Parts) (x y : Disks) (past : StorePast) (device : ℕ) (second : Bool) → Keeps parts x past → past.told.down (Member (member_at device second)) ≡ true → SameMemberLengths x y → Crashes (3 + member_at device second) x y → Keeps parts y past }
    ensures replaced { (parts : Parts) (x y : Disks) (past : StorePast) (device : ℕ) (second : Bool) → Keeps parts x past → past.told.down (Member (member_at device second)) ≡ true → IsSideAlone (row_of (last past.told.chain) device) second
        → SameMemberLengths x y → ((k sector : ℕ) → k ≢ 3 + member_at device second → Stays x y k sector) → Keeps parts y past }
    ensures survives_standing { (parts : Parts) (x y : Disks) (past : StorePast) (device other : ℕ) (second : Bool) (sector : ℕ) (content : List ℕ) (index : ℕ) → Keeps parts x past → past.told.down (Member (member_at device second)) ≡ true → SameMemberLengths x y → Crashes (3 + member_at device second) x y
        → StandsOn parts x past other sector content index → StandsOn parts y past other sector content index }
    ensures replaced_standing { (parts : Parts) (x y : Disks) (past : StorePast) (device other : ℕ) (second : Bool) (sector : ℕ) (content : List ℕ) (index : ℕ) → Keeps parts x past → past.told.down (Member (member_at device second)) ≡ true → IsSideAlone (row_of (last past.told.chain) device) second
        → SameMemberLengths x y → ((k s : ℕ) → k ≢ 3 + member_at device second → Stays x y k s) → StandsOn parts x past other sector content index → StandsOn parts y past other sector content index }
    ensures stays { (parts : Parts) (x y : Disks) (past : StorePast) → Keeps parts x past → SameMemberLengths x y → ((device : ℕ) → device < parts.made.devices → (second : Bool) (sector : ℕ) → Stays x y (member_disk device second) sector) → Keeps parts y past }
    ensures survives_settled { (parts : Parts) (x y : Disks) (past : StorePast) (device other : ℕ) (second : Bool) (sector : ℕ) (content : List ℕ) → Keeps parts x past → past.told.down (Member (member_at device second)) ≡ true → SameMemberLengths x y → Crashes (3 + member_at device second) x y
        → IsSettledOn parts x past other sector content → IsSettledOn parts y past other sector content }
    ensures replaced_settled { (parts : Parts) (x y : Disks) (past : StorePast) (device other : ℕ) (second : Bool) (sector : ℕ) (content : List ℕ) → Keeps parts x past → past.told.down (Member (member_at device second)) ≡ true → IsSideAlone (row_of (last past.told.chain) device) second
        → SameMemberLengths x y → ((k s : ℕ) → k ≢ 3 + member_at device second → Stays x y k s) → IsSettledOn parts x past other sector content → IsSettledOn parts y past other sector content }
    ensures survives_reads { (parts : Parts) (x y : Disks) (past : StorePast) (device : ℕ) (second : Bool) (reader : ℕ) (read : Asking) (sector : ℕ) (content : List ℕ) → Keeps parts x past → past.told.down (Member (member_at device second)) ≡ true → SameMemberLengths x y → Crashes (3 + member_at device second) x y
        → WillReadOn parts x past reader read sector content → WillReadOn parts y past reader read sector content }
    ensures replaced_reads { (parts : Parts) (x y : Disks) (past : StorePast) (device : ℕ) (second : Bool) (reader : ℕ) (read : Asking) (sector : ℕ) (content : List ℕ) → Keeps parts x past → past.told.down (Member (member_at device second)) ≡ true → IsSideAlone (row_of (last past.told.chain) device) second
        → SameMemberLengths x y → ((k s : ℕ) → k ≢ 3 + member_at device second → Stays x y k s) → WillReadOn parts x past reader read sector content → WillReadOn parts y past reader read sector content }
    ensures stays_settled { (parts : Parts) (x y : Disks) (past : StorePast) (other sector : ℕ) (content : List ℕ) → ((device : ℕ) → device < parts.made.devices → (second : Bool) (s : ℕ) → Stays x y (member_disk device second) s)
        → IsSettledOn parts x past other sector content → IsSettledOn parts y past other sector content }
    ensures stays_standing { (parts : Parts) (x y : Disks) (past : StorePast) (other sector : ℕ) (content : List ℕ) (index : ℕ) → ((device : ℕ) → device < parts.made.devices → (second : Bool) (s : ℕ) → Stays x y (member_disk device second) s)
        → StandsOn parts x past other sector content index → StandsOn parts y past other sector content index }
    ensures stays_reads { (parts : Parts) (x y : Disks) (past : StorePast) (reader : ℕ) (read : Asking) (sector : ℕ) (content : List ℕ) → ((device : ℕ) → device < parts.made.devices → (second : Bool) (s : ℕ) → Stays x y (member_disk device second) s)
        → WillReadOn parts x past reader read sector content → WillReadOn parts y past reader read sector content }
{}

/// Members and streams go on fitting the past where all disks of members read as they did, and what was sure is.
pub fn disks_are_surer()
    ensures keeps { (parts : Parts) (x y : Disks) (past : StorePast) → Keeps parts x past → SameMembers x y → SameMemberLengths x y → Keeps parts y past }
    ensures settles { (parts : Parts) (x y : Disks) (past : StorePast) (device sector : ℕ) (content : List ℕ) → Keeps parts x past → SameMembers x y → IsSettledOn parts x past device sector content → IsSettledOn parts y past device sector content }
    ensures stands { (parts : Parts) (x y : Disks) (past : StorePast) (device sector : ℕ) (content : List ℕ) (index : ℕ) → Keeps parts x past → SameMembers x y → StandsOn parts x past device sector content index → StandsOn parts y past device sector content index }
    ensures reads { (parts : Parts) (x y : Disks) (past : StorePast) (reader : ℕ) (read : Asking) (sector : ℕ) (content : List ℕ) → Keeps parts x past → SameMembers x y → WillReadOn parts x past reader read sector content → WillReadOn parts y past reader read sector content }
{}

/// Members and streams go on fitting the past where a member stops: what it knew and owed is gone, and its disk stays.
pub fn a_member_stops()
    ensures keeps { (parts : Parts) (x : Disks) (past : StorePast) (member : ℕ) (members : ℕ → MemberView) → Keeps parts x past → Stops parts members member → Keeps (record parts { members = members }) x (store_crashed past (Member member)) }
    ensures stands { (parts : Parts) (x : Disks) (past : StorePast) (member device sector : ℕ) (members : ℕ → MemberView) (content : List ℕ) (index : ℕ) → Keeps parts x past → Stops parts members member
        → StandsOn parts x past device sector content index → StandsOn (record parts { members = members }) x (store_crashed past (Member member)) device sector content index }
    ensures settles { (parts : Parts) (x : Disks) (past : StorePast) (member device sector : ℕ) (members : ℕ → MemberView) (content : List ℕ) → Keeps parts x past → Stops parts members member
        → IsSettledOn parts x past device sector content → IsSettledOn (record parts { members = members }) x (store_crashed past (Member member)) device sector content }
    ensures reads { (parts : Parts) (x : Disks) (past : StorePast) (member reader : ℕ) (members : ℕ → MemberView) (read : Asking) (sector : ℕ) (content : List ℕ) → Keeps parts x past → Stops parts members member
        → WillReadOn parts x past reader read sector content → WillReadOn (record parts { members = members }) x (store_crashed past (Member member)) reader read sector content }
{}
