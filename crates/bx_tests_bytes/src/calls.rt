//! Calls as text.

use bx_model::{Args, Call, Sattr};
use bx_tests_lines::Line;

/// Tells a call: its number, program, procedure, user and group, how many further groups there are and which, and its
/// arguments.
pub(crate) fn tell(line: &mut Line, xid: u32, call: &Call) {
    line.text("call");
    line.word(xid);
    line.word(call.program);
    line.word(call.procedure);
    line.word(call.uid);
    line.word(call.gid);
    line.word(call.gids.len().min(999) as u32);
    for gid in call.gids.items() {
        line.word(*gid);
    }
    tell_args(line, &call.args);
}

fn tell_args(line: &mut Line, args: &Args) {
    match args {
        Args::Refused(number) => tell_words(line, " refused", &[*number]),
        Args::Nothing => line.text(" nothing"),
        Args::Handle(handle) => tell_bytes(line, " handle", &[handle.bytes()]),
        Args::Set(handle, sattr) => {
            tell_bytes(line, " set", &[handle.bytes()]);
            tell_sattr(line, sattr);
        }
        Args::Read(handle, offset, count, total) => {
            tell_bytes(line, " read", &[handle.bytes()]);
            tell_words(line, "", &[*offset, *count, *total]);
        }
        Args::Write(handle, begin, offset, total, content) => {
            tell_bytes(line, " write", &[handle.bytes()]);
            tell_words(line, "", &[*begin, *offset, *total]);
            line.bytes(content.bytes());
        }
        Args::List(handle, cookie, count) => {
            tell_bytes(line, " list", &[handle.bytes()]);
            tell_words(line, "", &[*cookie, *count]);
        }
        Args::Path(path) => tell_bytes(line, " path", &[path.bytes()]),
        _ => tell_names(line, args),
    }
}

/// Tells arguments with a name in a directory.
fn tell_names(line: &mut Line, args: &Args) {
    match args {
        Args::Name(handle, name) => tell_bytes(line, " name", &[handle.bytes(), name.bytes()]),
        Args::Make(handle, name, sattr) => {
            tell_bytes(line, " make", &[handle.bytes(), name.bytes()]);
            tell_sattr(line, sattr);
        }
        Args::Rename(from, name, to, new) => {
            tell_bytes(line, " rename", &[from.bytes(), name.bytes()]);
            tell_bytes(line, "", &[to.bytes(), new.bytes()]);
        }
        Args::Link(file, handle, name) => {
            tell_bytes(line, " link", &[file.bytes(), handle.bytes(), name.bytes()]);
        }
        Args::Symlink(handle, name, path, sattr) => {
            let items = [handle.bytes(), name.bytes(), path.bytes()];
            tell_bytes(line, " symlink", &items);
            tell_sattr(line, sattr);
        }
        _ => {}
    }
}

fn tell_sattr(line: &mut Line, sattr: &Sattr) {
    tell_words(line, "", &[sattr.mode, sattr.uid, sattr.gid, sattr.size]);
    tell_words(line, "", &[sattr.atime.0, sattr.atime.1]);
    tell_words(line, "", &[sattr.mtime.0, sattr.mtime.1]);
}

fn tell_words(line: &mut Line, name: &str, words: &[u32]) {
    line.text(name);
    for word in words {
        line.word(*word);
    }
}

fn tell_bytes(line: &mut Line, name: &str, items: &[&[u8]]) {
    line.text(name);
    for item in items {
        line.bytes(item);
    }
}
