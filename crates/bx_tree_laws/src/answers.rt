//! What a call answers is what the tree then has.

ghost use Rattle.std.specs.Prelude.{◌≡◌, ◌^◌, ◌<◌, ◌≤◌, ℕ, List, Some, length, min, take};
ghost use Rattle.bx_model.specs.declared.call.Args.TheVariants as args;
ghost use Rattle.bx_model.specs.declared.call.Call.{Call};
ghost use Rattle.bx_model.specs.declared.reply.Reply.{Reply};
ghost use Rattle.bx_model.specs.declared.reply.Reply.TheVariants as reply;
ghost use Rattle.bx_model.specs.declared.tree.Tree.{Tree};
ghost use Rattle.bx_model.specs.Act.{act};
ghost use Rattle.bx_model.specs.FileTrees.{IsFileTree};
ghost use Rattle.bx_tree_laws.specs.Telling.{HandlesFit, Tells};

/// Where a call was answered with a file's attributes, GETATTR of that file, with nothing in between, answers the same ones. Handles
/// are numbers of 64 bits.
pub fn attributes_are_as_told()
    ensures { (tree : Tree) (call : Call) (moment spare made : ℕ) (answer : Reply) (next : Tree) (at words : List ℕ) (asking : Call) (later free : ℕ)
        → IsFileTree tree → HandlesFit tree → made < 2 ^ 64 → act tree call moment spare made ≡ Some (answer, next) → Tells call.args answer at words
        → asking.args ≡ args.Handle at → asking.procedure ≡ 1 → act next asking later free 0 ≡ Some (reply.Attributes words, next) }
{}

/// A READ of what a WRITE has just written, or of its beginning, answers what was written, as far as one READ answers.
pub fn what_was_written_is_read()
    ensures { (tree next last : Tree) (writer reader : Call) (at : List ℕ) (begin offset total : ℕ) (written : List ℕ) (count most : ℕ) (moment spare made later free none : ℕ) (words told bytes : List ℕ)
        → IsFileTree tree → writer.args ≡ args.Write at begin offset total written → reader.args ≡ args.Read at offset count most → count ≤ length written
        → act tree writer moment spare made ≡ Some (reply.Attributes words, next) → act next reader later free none ≡ Some (reply.Bytes told bytes, last)
        → bytes ≡ take (min count 8192) written }
{}
