// The line that has a key.
ghost use Rattle.std.specs.Prelude.{◌≡◌, true, false, ◌+◌, ◌<◌, ◌≤◌, length};
ghost use Rattle.lists.specs.Bytes.{eq_list};
ghost use Rattle.model.specs.Layouts.{record_bytes};
ghost use Rattle.model.specs.Records.{records_accepted, key_in_range, ranked, placed, key_numbers};
ghost use Rattle.model.specs.Records as model;
ghost use Rattle.sheet_laws.specs.Keys.{key_line};
ghost use Rattle.model.specs.Lines.{lines_of};
ghost use Rattle.model.specs.Told.{ranked_by};
ghost use Rattle.model.specs.SheetCalls.{looked_up, rank_on, line_on, line_among};
ghost use Rattle.sheets.specs.Search.{key_field, found_line};

use codec::keys::key_in_range;
use record_check::lines_end;
use types::{
    CLUSTERING_AT, Key, Layout, NAMESPACE_AT, PARTITION_AT, RECORD_BYTES, Rank, Refusal, STATE_AT,
    TABLE_AT,
};

// Where each key field begins, and the end of the last.
const EDGES: [usize; 6] = [
    0,
    NAMESPACE_AT,
    TABLE_AT,
    PARTITION_AT,
    CLUSTERING_AT,
    STATE_AT,
];

// The numbers of a key.
fn numbers_of(key: Key) -> [u32; 5]
    ensures { result ≡ key_numbers key }
{
    [
        key.storage,
        key.namespace,
        key.table,
        key.partition,
        key.clustering,
    ]
}

// The line of a key alone, with which the lines of a sheet are compared.
fn key_line(key: Key) -> [u8; 21]
    ensures { result ≡ key_line key }
{
    let row = numbers_of(key);
    let mut text = [0u8; 21];
    codec::lines::write_row(Layout::KeyLine, &row, &mut text);
    text
}

// Key field f of the line at `at` is that of the key line.
fn same_field(records: &[u8], at: usize, text: &[u8], f: usize) -> bool
    requires { (f < 5) × ((at + record_bytes ≤ length records.now) × (21 ≤ length text.now)) }
    ensures { result ≡ eq_list (key_field f at records.now) (key_field f 0 text.now) }
{
    let edges = EDGES;
    let from = edges[f];
    let to = edges[f + 1];
    let a = at + from;
    let e = at + to;
    decimal::same(&records[a..e], &text[from..to])
}

// The index of the first line that begins as a key line does. Fields are compared from the last, in which neighbouring lines differ most often. It leaves by a label, a
// form that the customer asked for (docs/SPECIFICATION.md, "Forms wanted at the bench"), and so counts its lines and fields itself.
fn find_line(records: &[u8], text: &[u8]) -> Option<usize>
    requires { 21 ≤ length text.now }
    ensures { result ≡ found_line 0 text.now (lines_of record_bytes records.now) }
{
    let n = records.len() / RECORD_BYTES;
    let mut i = 0;
    'lines: while i < n {
        let at = i * RECORD_BYTES;
        let mut f = 5;
        while 0 < f {
            f -= 1;
            if !same_field(records, at, text, f) {
                i += 1;
                continue 'lines;
            }
        }
        break 'lines;
    }
    if i < n { Some(i) } else { None }
}

// The line that has the key, among accepted lines: that part of `rank`'s answer by which operations go. None of them needs to know where a missing key would stand.
pub fn find(records: &[u8], key: Key) -> Option<usize>
    requires records_value { records_accepted records.now ≡ true }
    requires key_value { key_in_range key ≡ true }
    ensures { result ≡ placed (ranked key (model.records records.now)) }
{
    let text = key_line(key);
    find_line(records, &text)
}

// How many of accepted lines have smaller keys. Keys rise, so that a line tells of all lines on one side of it. An interval of line numbers is halved by hand, since
// the lines are no slice of keys.
fn below(records: &[u8], key: Key) -> usize
    requires { records_accepted records.now ≡ true }
    ensures { result ≡ model.rank key (model.records records.now) }
{
    let mut low = 0;
    let mut high = records.len() / RECORD_BYTES;
    while low < high {
        let middle = low + (high - low) / 2;
        if codec::reading::key(records, middle) < key {
            low = middle + 1;
        } else {
            high = middle;
        }
    }
    low
}

// Where the key stands among accepted lines, or would stand. Smaller keys are looked for only where no line has the key: else the index of its line is the rank.
pub fn rank(records: &[u8], key: Key) -> Rank
    requires records_value { records_accepted records.now ≡ true }
    requires key_value { key_in_range key ≡ true }
    ensures { result ≡ ranked key (model.records records.now) }
{
    match find(records, key) {
        Some(i) => Rank {
            below: i,
            present: true,
        },
        None => Rank {
            below: below(records, key),
            present: false,
        },
    }
}

// Which of accepted lines has the key: its index, or that it isn't there.
pub fn line(records: &[u8], key: Key) -> Result<Rank, Refusal>
    requires records_value { records_accepted records.now ≡ true }
    requires key_value { key_in_range key ≡ true }
    ensures told { ranked_by result ≡ line_among (model.records records.now) key }
    ensures few { (ranked_by result).rank.below ≤ 500 }
{
    match find(records, key) {
        Some(below) => Ok(Rank {
            below,
            present: true,
        }),
        None => Err(Refusal::NoSuchKey),
    }
}

// The line that has the key, as a part of the caller's sheet; an empty part where 1, 5 or 6 applies.
pub fn lookup(records: &[u8], key: Key) -> &[u8]
    ensures { result.now ≡ looked_up records.now key }
{
    if !record_check::sheet_ok(records) {
        return &records[..0];
    }
    if !key_in_range(key) {
        return &records[..0];
    }
    let end = lines_end(records);
    match find(&records[..end], key) {
        Some(i) => {
            let at = i * RECORD_BYTES;
            let past = at + RECORD_BYTES;
            &records[at..past]
        }
        None => &records[..0],
    }
}

// The look-up's companion: how many lines have smaller keys, and whether the key has a line itself.
pub fn rank_of(records: &[u8], key: Key) -> Result<Rank, Refusal>
    ensures told { ranked_by result ≡ rank_on records.now key }
    ensures few { (ranked_by result).rank.below ≤ 500 }
{
    if !record_check::sheet_ok(records) {
        return Err(Refusal::BadRecords);
    }
    if !key_in_range(key) {
        return Err(Refusal::BadKey);
    }
    let end = lines_end(records);
    Ok(rank(&records[..end], key))
}

// Which line has the key: its index, or the look-up's refusal, 6 where no line has it.
pub fn line_of(records: &[u8], key: Key) -> Result<Rank, Refusal>
    ensures told { ranked_by result ≡ line_on records.now key }
    ensures few { (ranked_by result).rank.below ≤ 500 }
{
    if !record_check::sheet_ok(records) {
        return Err(Refusal::BadRecords);
    }
    if !key_in_range(key) {
        return Err(Refusal::BadKey);
    }
    let end = lines_end(records);
    line(&records[..end], key)
}
