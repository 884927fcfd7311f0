//! What the procedures do.

ghost use Rattle.std.specs.Prelude.{◌≡◌, ◌≤◌, IfOk, OnErr, Some};
ghost use Rattle.bx_model.specs.Act.{IsPlain, about_file as about_file_of, about_name as about_name_of, about_new as about_new_of, act as act_of, given};
ghost use Rattle.bx_model.specs.Steps.{done, taken};
ghost use Rattle.bx_tree_files.specs.Times.{time_of as time_of_moment};
ghost use Rattle.bx_tree_making.specs.Asks.{Answers, asked};

use bx_base::OutOfMemory;
use bx_model::{Args, Call, Reply, Tree};
use bx_tree_changes::{link, remove, rmdir, setattr, write};
use bx_tree_making::{Ask, create, mkdir, symlink};
use bx_tree_moves::rename;
use bx_tree_reads::{getattr, lookup, mount, plain, read, readdir, readlink, statfs};

/// The procedure READLINK.
const READLINK: u32 = 5;

/// The procedure REMOVE.
const REMOVE: u32 = 10;

/// The procedure MKDIR.
const MKDIR: u32 = 14;

/// The procedure RMDIR.
const RMDIR: u32 = 15;

/// The procedure STATFS.
const STATFS: u32 = 17;

/// What a call is answered, which may change the tree. `moment` is in milliseconds, `spare` says how many
/// blocks are free, and `made` is the handle for a file that the call makes, else 0. `None` exactly where
/// `made` breaks that rule; then, and without memory, the tree is as before.
pub fn act(
    tree: &mut Tree,
    call: &Call,
    moment: u64,
    spare: u64,
    made: u64,
) -> Result<Option<Reply>, OutOfMemory>
    requires moment { moment ≤ 4294967295999 }
    requires spare { spare ≤ 4294967295 }
    ensures acts { IfOk result (Answers tree.old tree.new (act_of tree.old call.now moment spare made)) }
    ensures err { OnErr result (tree.new ≡ tree.old) }
{
    let (now, spare) = (time_of(moment), spare as u32);
    match &call.args {
        Args::Make(at, name, sattr) => {
            let (at, name) = (at.bytes(), name.bytes());
            about_new(
                tree,
                call,
                &Ask {
                    at,
                    name,
                    sattr,
                    time: now,
                    spare,
                    made,
                },
            )
        }
        Args::Symlink(at, name, path, sattr) => {
            let (at, name) = (at.bytes(), name.bytes());
            let ask = Ask {
                at,
                name,
                sattr,
                time: now,
                spare,
                made,
            };
            symlink(tree, call, &ask, path.bytes())
        }
        _ => act_plainly(tree, call, now, spare, made),
    }
}

/// CREATE and MKDIR. `None` exactly where the handle for the file breaks its rule.
fn about_new(tree: &mut Tree, call: &Call, ask: &Ask<'_>) -> Result<Option<Reply>, OutOfMemory>
    ensures acts { IfOk result (Answers tree.old tree.new (taken tree.old ask.now.made (asked about_new_of tree.old call.now ask.now))) }
    ensures err { OnErr result (tree.new ≡ tree.old) }
{
    if call.procedure == MKDIR {
        mkdir(tree, call, ask)
    } else {
        create(tree, call, ask)
    }
}

/// What a call that makes no file is answered, where `made` is 0.
fn act_plainly(
    tree: &mut Tree,
    call: &Call,
    now: (u32, u32),
    spare: u32,
    made: u64,
) -> Result<Option<Reply>, OutOfMemory>
    requires { IsPlain call.now.args }
    ensures acts { IfOk result (Answers tree.old tree.new (given tree.old call.now now spare made call.now.args)) }
    ensures err { OnErr result (tree.new ≡ tree.old) }
{
    if made != 0 {
        return Ok(None);
    }
    let reply = answer(tree, call, now, spare)?;
    Ok(Some(reply))
}

/// What a call that makes no file is answered.
fn answer(tree: &mut Tree, call: &Call, now: (u32, u32), spare: u32) -> Result<Reply, OutOfMemory>
    requires { IsPlain call.now.args }
    ensures ok { IfOk result (λ reply. given tree.old call.now now spare 0 call.now.args ≡ Some (reply, tree.new)) }
    ensures err { OnErr result (tree.new ≡ tree.old) }
{
    match &call.args {
        Args::Refused(number) => Ok(Reply::Refused(*number, call.program)),
        Args::Nothing => Ok(plain(call.program, call.procedure)),
        Args::Path(path) => mount(tree, call.procedure, path.bytes()),
        Args::Handle(at) => about_file(tree, call.procedure, at.bytes(), spare),
        Args::Name(at, name) => about_name(tree, call, at.bytes(), name.bytes(), now),
        Args::Read(at, offset, count, _) => read(tree, call, at.bytes(), *offset, *count),
        Args::List(at, cookie, count) => readdir(tree, call, at.bytes(), *cookie, *count),
        Args::Set(at, sattr) => setattr(tree, call, at.bytes(), sattr, now),
        Args::Write(at, _, offset, _, written) => {
            write(tree, call, at.bytes(), *offset, written.bytes(), now, spare)
        }
        Args::Link(from, at, name) => {
            link(
                tree,
                call,
                from.bytes(),
                at.bytes(),
                name.bytes(),
                now,
                spare,
            )
        }
        Args::Rename(from, name, to, new_name) => {
            let (from, name) = (from.bytes(), name.bytes());
            let (to, new_name) = (to.bytes(), new_name.bytes());
            rename(tree, call, from, name, to, new_name, now, spare)
        }
        _ => unreachable!(),
    }
}

/// LOOKUP, REMOVE and RMDIR.
fn about_name(
    tree: &mut Tree,
    call: &Call,
    at: &[u8],
    name: &[u8],
    now: (u32, u32),
) -> Result<Reply, OutOfMemory>
    ensures ok { IfOk result (λ reply. done tree.old (about_name_of tree.old call.now at.now name.now now) ≡ (reply, tree.new)) }
    ensures err { OnErr result (tree.new ≡ tree.old) }
{
    match call.procedure {
        REMOVE => Ok(remove(tree, call, at, name, now)),
        RMDIR => Ok(rmdir(tree, call, at, name, now)),
        _ => lookup(tree, call, at, name),
    }
}

/// What a procedure that takes a file handle alone is answered.
fn about_file(tree: &Tree, procedure: u32, at: &[u8], spare: u32) -> Result<Reply, OutOfMemory>
    ensures { IfOk result (λ reply. done tree.now (about_file_of tree.now procedure at.now spare) ≡ (reply, tree.now)) }
{
    match procedure {
        READLINK => readlink(tree, at),
        STATFS => statfs(tree, at, spare),
        _ => getattr(tree, at),
    }
}

/// The time of a moment in milliseconds: seconds, and microseconds.
fn time_of(moment: u64) -> (u32, u32)
    requires { moment ≤ 4294967295999 }
    ensures { result ≡ time_of_moment moment }
{
    ((moment / 1000) as u32, 1000 * (moment % 1000) as u32)
}
