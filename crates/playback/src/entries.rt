// The entries, lent the buffers. Of each permission map the first n bytes are lent: all where permissions are tracked, else none.
// Kept: the permission maps go out and in: `&mut buffers.read[..n]` isn't covered, and by a slice of the whole `returns` stayed open.
ghost use Rattle.std.specs.Prelude.{◌≡◌, ◌≤◌};
ghost use Rattle.protector.specs.Calls.{build_of, visibility_of, answer_done, answer_failed};
ghost use Rattle.protection_entries.specs.Calls.{default_of, protection_of};
ghost use Rattle.overlay_entries.specs.Calls.{unregister_of, register_of};
ghost use Rattle.playback.specs.Buffers.{map_bytes, lent_of, after, code_of};

use crate::buffers::{Buffers, CODES, Call};

fn code_of(code: u64) -> u16
    ensures { result ≡ code_of code }
{
    (code % CODES) as u16
}

// A build.
pub fn build(buffers: &mut Buffers, n: usize, c: Call, ram: &[u64])
    requires { n ≤ map_bytes }
    ensures { buffers.new ≡ after n buffers.old (build_of (lent_of n buffers.old) ram.now c.a c.b c.c) }
{
    let mut read = buffers.read;
    let mut write = buffers.write;
    let mut kernel = buffers.kernel;
    let mut user = buffers.user;
    buffers.reply = underhill_mem::protector_build(
        ram,
        c.a,
        c.b,
        c.c,
        &mut buffers.private,
        &mut buffers.shared,
        &mut read[..n],
        &mut write[..n],
        &mut kernel[..n],
        &mut user[..n],
        &mut buffers.state,
        &mut buffers.pages,
        &mut buffers.tables,
    );
    buffers.read = read;
    buffers.write = write;
    buffers.kernel = kernel;
    buffers.user = user;
}

// A visibility change.
pub fn visibility(buffers: &mut Buffers, n: usize, c: Call, list: &[u8])
    requires { n ≤ map_bytes }
    ensures { buffers.new ≡ after n buffers.old (visibility_of (lent_of n buffers.old) c.a c.b list.now) }
{
    let mut read = buffers.read;
    let mut write = buffers.write;
    let mut kernel = buffers.kernel;
    let mut user = buffers.user;
    buffers.reply = underhill_mem::protector_change_host_visibility(
        &mut buffers.private,
        &mut buffers.shared,
        &mut read[..n],
        &mut write[..n],
        &mut kernel[..n],
        &mut user[..n],
        &mut buffers.state,
        &mut buffers.pages,
        &buffers.tables,
        c.a,
        c.b,
        list,
    );
    buffers.read = read;
    buffers.write = write;
    buffers.kernel = kernel;
    buffers.user = user;
}

// A protection change.
pub fn protections(buffers: &mut Buffers, n: usize, c: Call, list: &[u8])
    requires { n ≤ map_bytes }
    ensures { buffers.new ≡ after n buffers.old (protection_of (lent_of n buffers.old) c.a c.b list.now) }
{
    let mut read = buffers.read;
    let mut write = buffers.write;
    let mut kernel = buffers.kernel;
    let mut user = buffers.user;
    buffers.reply = protection_entries::protector_change_vtl_protections(
        &buffers.private,
        &buffers.shared,
        &mut read[..n],
        &mut write[..n],
        &mut kernel[..n],
        &mut user[..n],
        &mut buffers.state,
        &mut buffers.pages,
        &buffers.tables,
        c.a,
        c.b,
        list,
    );
    buffers.read = read;
    buffers.write = write;
    buffers.kernel = kernel;
    buffers.user = user;
}

// A default change.
// Kept, beside `unregister`: each calls its entry, with the clause of its definition.
pub fn default(buffers: &mut Buffers, n: usize, c: Call)
    requires { n ≤ map_bytes }
    ensures { buffers.new ≡ after n buffers.old (default_of (lent_of n buffers.old) c.a c.b) }
{
    let mut read = buffers.read;
    let mut write = buffers.write;
    let mut kernel = buffers.kernel;
    let mut user = buffers.user;
    buffers.reply = protection_entries::protector_change_default_vtl_protections(
        &buffers.private,
        &buffers.shared,
        &mut read[..n],
        &mut write[..n],
        &mut kernel[..n],
        &mut user[..n],
        &mut buffers.state,
        &buffers.pages,
        &mut buffers.tables,
        c.a,
        c.b,
    );
    buffers.read = read;
    buffers.write = write;
    buffers.kernel = kernel;
    buffers.user = user;
}

// An overlay page is registered.
pub fn register(buffers: &mut Buffers, n: usize, c: Call)
    requires { n ≤ map_bytes }
    ensures { buffers.new ≡ after n buffers.old (register_of (lent_of n buffers.old) c.a c.b c.c c.d c.e) }
{
    let mut read = buffers.read;
    let mut write = buffers.write;
    let mut kernel = buffers.kernel;
    let mut user = buffers.user;
    buffers.reply = overlay_entries::protector_register_overlay_page(
        &buffers.private,
        &buffers.shared,
        &mut read[..n],
        &mut write[..n],
        &mut kernel[..n],
        &mut user[..n],
        &mut buffers.state,
        &buffers.pages,
        &mut buffers.tables,
        c.a,
        c.b,
        c.c,
        c.d,
        c.e,
    );
    buffers.read = read;
    buffers.write = write;
    buffers.kernel = kernel;
    buffers.user = user;
}

// An overlay page is unregistered.
pub fn unregister(buffers: &mut Buffers, n: usize, c: Call)
    requires { n ≤ map_bytes }
    ensures { buffers.new ≡ after n buffers.old (unregister_of (lent_of n buffers.old) c.a c.b) }
{
    let mut read = buffers.read;
    let mut write = buffers.write;
    let mut kernel = buffers.kernel;
    let mut user = buffers.user;
    buffers.reply = overlay_entries::protector_unregister_overlay_page(
        &buffers.private,
        &buffers.shared,
        &mut read[..n],
        &mut write[..n],
        &mut kernel[..n],
        &mut user[..n],
        &mut buffers.state,
        &buffers.pages,
        &mut buffers.tables,
        c.a,
        c.b,
    );
    buffers.read = read;
    buffers.write = write;
    buffers.kernel = kernel;
    buffers.user = user;
}

// The operation asked for is done.
pub fn done(buffers: &mut Buffers, n: usize)
    requires { n ≤ map_bytes }
    ensures { buffers.new ≡ after n buffers.old (answer_done (lent_of n buffers.old)) }
{
    let mut read = buffers.read;
    let mut write = buffers.write;
    let mut kernel = buffers.kernel;
    let mut user = buffers.user;
    buffers.reply = underhill_mem::protector_answer_done(
        &mut buffers.private,
        &mut buffers.shared,
        &mut read[..n],
        &mut write[..n],
        &mut kernel[..n],
        &mut user[..n],
        &mut buffers.state,
        &mut buffers.pages,
        &mut buffers.tables,
    );
    buffers.read = read;
    buffers.write = write;
    buffers.kernel = kernel;
    buffers.user = user;
}

// It failed, with the code and the pages processed that the call names.
pub fn failed(buffers: &mut Buffers, n: usize, c: Call)
    requires { n ≤ map_bytes }
    ensures { buffers.new ≡ after n buffers.old (answer_failed (lent_of n buffers.old) (code_of c.code) c.processed) }
{
    let mut read = buffers.read;
    let mut write = buffers.write;
    let mut kernel = buffers.kernel;
    let mut user = buffers.user;
    buffers.reply = underhill_mem::protector_answer_failed(
        &mut buffers.private,
        &mut buffers.shared,
        &mut read[..n],
        &mut write[..n],
        &mut kernel[..n],
        &mut user[..n],
        &mut buffers.state,
        &mut buffers.pages,
        &mut buffers.tables,
        code_of(c.code),
        c.processed,
    );
    buffers.read = read;
    buffers.write = write;
    buffers.kernel = kernel;
    buffers.user = user;
}
