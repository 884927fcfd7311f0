//! Every step keeps a file tree.

ghost use Rattle.std.specs.Prelude.{◌≡◌, ℕ, List, Some};
ghost use Rattle.bx_model.specs.declared.call.Call.{Call};
ghost use Rattle.bx_model.specs.declared.entry.Entry.{Entry};
ghost use Rattle.bx_model.specs.declared.reply.Reply.{Reply};
ghost use Rattle.bx_model.specs.declared.tree.Tree.{Tree};
ghost use Rattle.bx_model.specs.Act.{act};
ghost use Rattle.bx_model.specs.FileTrees.{IsFileTree};
ghost use Rattle.bx_model.specs.Opening.{opening};
ghost use Rattle.bx_tree_laws.specs.Acting.{AreSteps, PathFits};

/// The tree of a volume that was just made is a file tree, of however many areas.
pub fn the_opening_tree_is_one()
    ensures opening { (volume : ℕ) → IsFileTree (opening volume) }
    ensures areas { (volume areas : ℕ) → IsFileTree (record (opening volume) { areas = areas }) }
{}

/// Whatever is called, a file tree is left; so every history leads from a file tree, as the opening tree is, to file trees.
pub fn every_step_keeps_a_file_tree()
    ensures step { (tree : Tree) (call : Call) (moment spare made : ℕ) (reply : Reply) (next : Tree)
        → IsFileTree tree → PathFits call.args → act tree call moment spare made ≡ Some (reply, next) → IsFileTree next }
    ensures history { (tree last : Tree) (entries : List Entry) → IsFileTree tree → AreSteps tree entries last → IsFileTree last }
{}
