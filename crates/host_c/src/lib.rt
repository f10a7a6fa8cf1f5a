// The symbols that a host program in C links: the calls of `host`, each under its own name and by C's calling
// convention. `make` puts them into the archive; include/script_replica.h declares them.
//
// Rests on `host`, which says what each call gives: an export makes the call of its name and promises the same. The two
// are twins because C needs them so: a crate is a library for Rattle or an archive for C.
#![tactic(auto)]

ghost use Rattle.std.specs.Prelude.{◌≡◌};
ghost use Rattle.host.specs.Calls.{start_bytes, insert_bytes, delete_bytes, receive_bytes, row_text, compare_bytes, first_patch};

// Starts a replica as this site, whatever stood in record and table.
#[unsafe(no_mangle)]
pub extern "C" fn replica_start(state: &mut [u8], table: &mut [u8], site: u32) -> u32
    ensures { record { answer = result; state = state.new; table = table.new } ≡ start_bytes state.old table.old site }
{
    host::replica_start(state, table, site)
}

// Inserts a line with this text before a row. The patch is written at the front of `patch`, and its length
// into `written`.
#[unsafe(no_mangle)]
pub extern "C" fn replica_insert(
    state: &mut [u8],
    table: &mut [u8],
    row: usize,
    text: &[u8],
    draw: u32,
    patch: &mut [u8],
    written: &mut usize,
) -> u32
    ensures { record { answer = result; state = state.new; table = table.new; patch = patch.new; written = written.new } ≡ insert_bytes state.old table.old row text.now draw patch.old }
{
    host::replica_insert(state, table, row, text, draw, patch, written)
}

// Deletes the line of a row. The patch is written at the front of `patch`, and its length into `written`.
#[unsafe(no_mangle)]
pub extern "C" fn replica_delete(
    state: &mut [u8],
    table: &mut [u8],
    row: usize,
    patch: &mut [u8],
    written: &mut usize,
) -> u32
    ensures { record { answer = result; state = state.new; table = table.new; patch = patch.new; written = written.new } ≡ delete_bytes state.old table.old row patch.old }
{
    host::replica_delete(state, table, row, patch, written)
}

// Receives a patch.
#[unsafe(no_mangle)]
pub extern "C" fn replica_receive(state: &mut [u8], table: &mut [u8], patch: &[u8]) -> u32
    ensures { record { answer = result; state = state.new; table = table.new } ≡ receive_bytes state.old table.old patch.now }
{
    host::replica_receive(state, table, patch)
}

// Where in the table the text of a row stands: its first byte and its length, or two zeros.
#[unsafe(no_mangle)]
pub extern "C" fn replica_row_text(
    state: &[u8],
    table: &[u8],
    row: usize,
    start: &mut usize,
    len: &mut usize,
) -> u32
    ensures { record { answer = result; start = start.new; len = len.new } ≡ row_text state.now table.now row }
{
    host::replica_row_text(state, table, row, start, len)
}

// Compares two sets of sixteen counts, 64 bytes each, and writes for each site which side has more, and the
// first and last number that the other side lacks.
#[unsafe(no_mangle)]
pub extern "C" fn replica_compare(first: &[u8], second: &[u8], res: &mut [u8]) -> u32
    ensures { record { answer = result; result = res.new } ≡ compare_bytes first.now second.now res.old }
{
    host::replica_compare(first, second, res)
}

// How many bytes the first patch of a run takes: so a host can keep patches one behind the other.
#[unsafe(no_mangle)]
pub extern "C" fn replica_patch_first(bytes: &[u8], used: &mut usize) -> u32
    ensures { record { answer = result; used = used.new } ≡ first_patch bytes.now }
{
    host::replica_patch_first(bytes, used)
}
