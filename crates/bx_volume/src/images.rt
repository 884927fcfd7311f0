//! Laws of the trees that images stand for.

ghost use Rattle.bx_disk.specs.Disks.{Image, Disks};
ghost use Rattle.bx_global.specs.declared.state.GlobalState.{GlobalState};
ghost use Rattle.bx_layout.specs.declared.label.Label.{Label};
ghost use Rattle.bx_tree_laws.specs.bx_model.specs.Listing.{listing};
ghost use Rattle.bx_tree_laws.specs.bx_model.specs.Opening.{opening};
ghost use Rattle.bx_tree_laws.specs.bx_model.specs.declared.tree.Tree.{Tree};
ghost use Rattle.bx_volume.specs.AtRest.{IsAtRest};
ghost use Rattle.bx_tree_laws.specs.bx_model.specs.FileTrees.{IsFileTree};
ghost use Rattle.bx_truth.specs.Opening.{opening_truth};
ghost use Rattle.bx_truth.specs.Stands.{StandsFor};
ghost use Rattle.bx_truth.specs.bx_views.specs.Truths.{Truth};
ghost use Rattle.bx_volume.specs.Images.{IsFirstLabel, ShowsTree, ImageStandsFor};
ghost use Rattle.bx_volume.specs.States.{TellsState, Cells};
ghost use Rattle.bx_volume.specs.Records.{Logged};
ghost use Rattle.bx_volume.specs.Volumes.{InDoubt, IsVolumeFor};
ghost use Rattle.std.specs.Prelude.{◌≡◌, ℕ, Bool, List};

/// An image has one first label.
pub fn one_first_label()
    ensures { (sizes : List ℕ) (image : Image) (a b : Label) → IsFirstLabel sizes image a → IsFirstLabel sizes image b → a ≡ b }
{}

/// The cells tell one state.
pub fn one_state()
    ensures { (cells : Cells) (a b : GlobalState) → TellsState cells a → TellsState cells b → a ≡ b }
{}

/// An image in a global state, read off the same members, shows one tree, but for the handles that were given out once.
pub fn one_tree_is_shown()
    ensures files { (sizes : List ℕ) (image : Image) (state : GlobalState) (second : ℕ → ℕ → Bool) (a b : Tree)
        → ShowsTree sizes image state second a → ShowsTree sizes image state second b → a.files ≡ b.files }
    ensures listing { (sizes : List ℕ) (image : Image) (state : GlobalState) (second : ℕ → ℕ → Bool) (a b : Tree)
        → ShowsTree sizes image state second a → ShowsTree sizes image state second b → listing a ≡ listing b }
    ensures volume { (sizes : List ℕ) (image : Image) (state : GlobalState) (second : ℕ → ℕ → Bool) (a b : Tree)
        → ShowsTree sizes image state second a → ShowsTree sizes image state second b → (a.volume ≡ b.volume) × (a.areas ≡ b.areas) × (a.root ≡ b.root) }
{
    one_first_label();
}

/// An image in a global state stands for one tree, but for the handles that were given out once: which members it is read off is told
/// by the state.
pub fn one_tree_stands()
    ensures files { (sizes : List ℕ) (image : Image) (state : GlobalState) (a b : Tree)
        → ImageStandsFor sizes (λ image told. told ≡ state) image a → ImageStandsFor sizes (λ image told. told ≡ state) image b → a.files ≡ b.files }
    ensures listing { (sizes : List ℕ) (image : Image) (state : GlobalState) (a b : Tree)
        → ImageStandsFor sizes (λ image told. told ≡ state) image a → ImageStandsFor sizes (λ image told. told ≡ state) image b → listing a ≡ listing b }
    ensures volume { (sizes : List ℕ) (image : Image) (state : GlobalState) (a b : Tree)
        → ImageStandsFor sizes (λ image told. told ≡ state) image a → ImageStandsFor sizes (λ image told. told ≡ state) image b → (a.volume ≡ b.volume) × (a.areas ≡ b.areas) × (a.root ≡ b.root) }
{
    one_first_label();
}

/// A rack at rest is a volume for the file tree that its truth stands for, and no record is in doubt. The global state is the one that
/// it is known to tell.
pub fn a_rack_at_rest()
    ensures none_in_doubt { (disks : Disks) (state : GlobalState) (first : Label) (truth : Truth) (tree : Tree) → IsAtRest disks (λ image told. told ≡ state) first truth
        → StandsFor first.areas truth tree → IsFileTree tree → tree.volume ≡ first.volume
        → (slot : ℕ) (logged : Logged) → InDoubt disks (λ image told. told ≡ state) first.devices first.areas slot logged → ⊥ }
    ensures volume { (disks : Disks) (state : GlobalState) (first : Label) (truth : Truth) (tree : Tree) → IsAtRest disks (λ image told. told ≡ state) first truth
        → StandsFor first.areas truth tree → IsFileTree tree → tree.volume ≡ first.volume
        → IsVolumeFor disks (λ image told. told ≡ state) first.devices first.areas (λ before after. before ≡ after) tree }
{}

/// So a rack that was just formatted, which has the opening truth, is a volume for the opening tree.
pub fn a_formatted_rack()
    ensures { (disks : Disks) (state : GlobalState) (first : Label) → IsAtRest disks (λ image told. told ≡ state) first opening_truth
        → IsVolumeFor disks (λ image told. told ≡ state) first.devices first.areas (λ before after. before ≡ after) (record (opening first.volume) { areas = first.areas }) }
{}
