//! Engines.

ghost use Rattle.std.specs.Prelude.{◌≡◌, ◌≢◌, ℕ, ◌<◌, ◌≤◌, List, true, false, IfNone, IfOk, IfSome};
ghost use Rattle.bx_records.specs.bx_base.specs.declared.names.Mode.{Mode};
ghost use Rattle.bx_records.specs.bx_base.specs.declared.names.Mode.TheVariants.{Shared};
ghost use Rattle.bx_records.specs.bx_places.specs.Places.{is_block};
ghost use Rattle.bx_records.specs.Drafts.{Changed};
ghost use Rattle.bx_rpc.specs.Message.{is_message};
ghost use Rattle.bx_views.specs.Attempts.{ChangesNothing, Deed, Gives, IfActed, IfChange, IfInner, IsAnswer, IsFair, TellsFree, Tidies};
ghost use Rattle.bx_views.specs.Truths.{Held, Hints, IsTruth, Truth, no_hints, with_draft, with_hint, without_hint};

use crate::attempt::Attempt;
use crate::view::View;
use bx_records::base::OutOfMemory;
use std::alloc::Global;

/// What calls do to a tree that stands on the blocks of a volume.
pub trait Engine: Drop {
    /// The trees.
    type Tree;

    /// How many areas the volume has.
    ghost areas: { Self → ℕ };

    /// The tree of a volume that was just formatted, and the truth that stands for it.
    ghost opening: { Self → Self.Tree };

    ghost opening_truth: { Self → Truth };

    /// A truth stands for a tree, and these hints agree with it.
    ghost stands: { Self → Truth → Hints → Self.Tree → Type 0 };

    /// One step of a tree.
    ghost step: { Self → Self.Tree → Deed → Self.Tree → Type 0 };

    /// The blocks on the path of a call over a view, by a client's number and the call's bytes.
    ghost path: { Self → ℕ → List ℕ → Held → Hints → ℕ → Mode → Type 0 };

    /// The blocks on the path of a tidy of an area.
    ghost tidy_path: { Self → ℕ → Held → Hints → ℕ → Mode → Type 0 };

    /// How many blocks are free.
    ghost free: { Self → Truth → ℕ };

    /// A call's reply, by the bytes of both, tells how many blocks are free.
    ghost tells_free: { Self → List ℕ → List ℕ → Type 0 };

    /// A call asks how many blocks are free.
    ghost asks_free: { Self → List ℕ → Type 0 };

    /// A call takes blocks, and over a view no more is left for it than so many that are free.
    ghost lacks_room: { Self → Held → Hints → List ℕ → ℕ → Type 0 };

    /// A call is answered whatever is held.
    ghost at_once: { Self → List ℕ → Type 0 };

    /// A call changes nothing, whatever the tree.
    ghost only_reads: { Self → List ℕ → Type 0 };

    /// A call at a moment lacks something and comes to no error, and these blocks bring it nearer, over a view and a truth that stands for a tree.
    ghost prepares: { Self → Held → Hints → Truth → Self.Tree → List ℕ → ℕ → List Changed → Type 0 };

    /// A call lacks nothing, over a truth that stands for a tree.
    ghost is_ready: { Self → Truth → Self.Tree → List ℕ → Type 0 };

    /// An area has no dead file.
    ghost is_clean: { Self → Truth → ℕ → Type 0 };

    /// The second truth has less of what dead files take than the first.
    ghost less: { Self → Truth → Truth → Type 0 };

    /// Attempts a call over a view, at a moment in milliseconds; `None` exactly where the bytes are no call's. On an error, which is want of
    /// memory, nothing is changed.
    fn attempt<V: View>(
        &self,
        alloc: Global,
        client: u32,
        call: &[u8],
        moment: u64,
        view: &V,
    ) -> Result<Option<Attempt>, OutOfMemory>
        requires { moment ≤ 4294967295999 }
        ensures gives { (truth : Truth) (tree : Self.Tree) → IsTruth (V.held view.now) truth → stands self.now truth (V.hints view.now) tree
            → IfOk result (λ found. IfSome found (Gives (stands self.now) (step self.now) (free self.now truth) client call.now moment truth tree)) }
        ensures spare { (truth : Truth) (tree : Self.Tree) → IsTruth (V.held view.now) truth → stands self.now truth (V.hints view.now) tree
            → IfOk result (λ found. IfSome found (IfActed (TellsFree (tells_free self.now call.now) (free self.now truth)))) }
        ensures full { (asks_free self.now call.now → ⊥) → IfOk result (λ found. IfSome found (IfActed (λ done. done.spare ≢ 8 → lacks_room self.now (V.held view.now) (V.hints view.now) call.now done.spare))) }
        ensures lacks { (truth : Truth) (tree : Self.Tree) → IsTruth (V.held view.now) truth → stands self.now truth (V.hints view.now) tree
            → IfOk result (λ found. IfSome found (IfInner (prepares self.now (V.held view.now) (V.hints view.now) truth tree call.now moment))) }
        ensures ready { (truth : Truth) (tree : Self.Tree) → IsTruth (V.held view.now) truth → stands self.now truth (V.hints view.now) tree
            → IfOk result (λ found. IfSome found (IfChange (is_ready self.now truth tree call.now))) }
        ensures fair { IfOk result (λ found. IfSome found (IsFair (areas self.now) (V.held view.now) (path self.now client call.now (V.held view.now) (V.hints view.now)))) }
        ensures at_once { at_once self.now call.now → IfOk result (λ found. IfSome found IsAnswer) }
        ensures keeps { only_reads self.now call.now → IfOk result (λ found. IfSome found ChangesNothing) }
        ensures message { IfOk result (λ found. IfSome found (λ attempt. is_message call.now ≡ true)) }
        ensures no_message { IfOk result (λ found. IfNone found (is_message call.now ≡ false)) };

    /// Cleans an area, a little at a time. On an error, which is want of memory, nothing is changed.
    fn tidy<V: View>(&self, alloc: Global, area: u16, view: &V) -> Result<Attempt, OutOfMemory>
        requires { area < areas self.now }
        ensures gives { (truth : Truth) (tree : Self.Tree) → IsTruth (V.held view.now) truth → stands self.now truth (V.hints view.now) tree
            → IfOk result (Tidies (stands self.now) (is_clean self.now truth area) truth tree) }
        ensures gains { (truth : Truth) (tree : Self.Tree) → IsTruth (V.held view.now) truth → stands self.now truth (V.hints view.now) tree
            → IfOk result (IfInner (λ draft. less self.now truth (with_draft truth draft))) }
        ensures fair { IfOk result (IsFair (areas self.now) (V.held view.now) (tidy_path self.now area (V.held view.now) (V.hints view.now))) };

    /// The truth of a volume that was just formatted stands for its tree, with no hints.
    ghost opens: { (engine : Self) → stands engine (opening_truth engine) no_hints (opening engine) };

    /// The blocks of the volume alone matter.
    ghost extends: { (engine : Self) (truth other : Truth) (hints : Hints) (tree : Self.Tree) → ((at : ℕ) → is_block (areas engine) at ≡ true → other at ≡ truth at) → stands engine truth hints tree → stands engine other hints tree };

    /// No hints agree with every truth that stands.
    ghost forgets: { (engine : Self) (truth : Truth) (hints : Hints) (tree : Self.Tree) → stands engine truth hints tree → stands engine truth no_hints tree };

    /// A hint may be dropped.
    ghost drops: { (engine : Self) (truth : Truth) (hints : Hints) (tree : Self.Tree) (at : ℕ) → stands engine truth hints tree → stands engine truth (without_hint at hints) tree };

    /// What a block of the volume holds may be a hint of it.
    ghost hints_at: { (engine : Self) (truth : Truth) (hints : Hints) (tree : Self.Tree) (at : ℕ) → stands engine truth hints tree → is_block (areas engine) at ≡ true → stands engine truth (with_hint at (truth at) hints) tree };

    /// What is on the path of a call that changes nothing is needed shared.
    ghost shares: { (engine : Self) (client : ℕ) (call : List ℕ) (held : Held) (hints : Hints) (at : ℕ) (mode : Mode) → only_reads engine call → path engine client call held hints at mode → mode ≡ Shared };

    /// Where nothing is written, nothing is less.
    ghost advances: { (engine : Self) (truth : Truth) → less engine truth truth → ⊥ };
}
