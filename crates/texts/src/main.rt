// Reads records from standard input and writes one line for each: the text of an id, an id packed, the path of a cell, the cell of a path, the child
// number of a cell at a level.
//
// A record has 32 bytes, eight numbers of 32 bits, low byte first: the kind, and what the kind takes. The rest of the record is passed over.
//
//   kind  takes                                     line
//   0     a raw id, low half first                  id RAW: TEXT
//   1     index, generation                         leaf INDEX GENERATION: RAW
//   2     index, generation, types, mask            branch INDEX GENERATION TYPES MASK: RAW
//   3     x, y, z                                   path X Y Z: CODE
//   4     a path code                               cell CODE: X Y Z
//   5     x, y, z, level, depth                     child X Y Z at LEVEL of DEPTH: NUMBER
//
// RAW is in hex and the rest is in decimal. Of a generation the low 16 bits count, of types and mask the low 8; x, y and z are signed. A refusal
// stands after the colon as 'refused' and its number. Another kind gives 'unknown KIND'. A cut last record of K bytes gives 'short K'.
// Where the input can't be read or a line can't be written, the program ends with the error.
#![tactic(auto)]

ghost use Rattle.std.specs.Prelude.{◌<◌, ◌≤◌, IfOk};

use ids::BlockId;
use paths::IVec3;
use std::io;
use std::io::Read;

// The number of 32 bits at a place of the record.
fn word(record: &[u8; 32], at: usize) -> u32
    requires { at < 29 }
{
    u32::from_le_bytes([record[at], record[at + 1], record[at + 2], record[at + 3]])
}

fn cell_of(record: &[u8; 32]) -> IVec3 {
    IVec3 {
        x: word(record, 4).cast_signed(),
        y: word(record, 8).cast_signed(),
        z: word(record, 12).cast_signed(),
    }
}

fn low_16(n: u32) -> u16 {
    (n % 0x1_0000) as u16
}

fn low_8(n: u32) -> u8 {
    (n % 0x100) as u8
}

// The end of a line on a refusal.
fn refused(rt: &impl Print, no: u32) -> io::Result<()> {
    println!(rt; "refused {no}")
}

// The end of a line on packing: the id, or the refusal.
fn packed(rt: &impl Print, no: u32, id: BlockId) -> io::Result<()> {
    if no != 0 {
        return refused(rt, no);
    }
    println!(rt; "{:016x}", id.raw())
}

fn leaf_line(rt: &impl Print, index: u32, generation: u16) -> io::Result<()> {
    print!(rt; "leaf {index} {generation}: ")?;
    packed(
        rt,
        BlockId::packing_no(generation),
        BlockId::new_leaf(index, generation),
    )
}

fn branch_line(
    rt: &impl Print,
    index: u32,
    generation: u16,
    types: u8,
    mask: u8,
) -> io::Result<()> {
    print!(rt; "branch {index} {generation} {types} {mask}: ")?;
    packed(
        rt,
        BlockId::packing_no(generation),
        BlockId::new_branch(index, generation, types, mask),
    )
}

fn path_line(rt: &impl Print, cell: IVec3) -> io::Result<()> {
    let code = paths::encode_child_index_path(cell);
    println!(rt; "path {} {} {}: {code}", cell.x, cell.y, cell.z)
}

fn cell_line(rt: &impl Print, code: u32) -> io::Result<()> {
    print!(rt; "cell {code}: ")?;
    match paths::decode_child_index_path(code) {
        Ok(cell) => println!(rt; "{} {} {}", cell.x, cell.y, cell.z),
        Err(refusal) => refused(rt, u32::from(refusal)),
    }
}

fn child_line(rt: &impl Print, cell: IVec3, level: u32, depth: u32) -> io::Result<()> {
    print!(rt;
        "child {} {} {} at {level} of {depth}: ",
        cell.x, cell.y, cell.z
    )?;
    match paths::child_index2(cell, level, depth) {
        Ok(child) => println!(rt; "{child}"),
        Err(refusal) => refused(rt, u32::from(refusal)),
    }
}

fn record_line(rt: &impl Print, record: &[u8; 32]) -> io::Result<()> {
    match word(record, 0) {
        0 => {
            let id = BlockId((word(record, 4) as u64) + (word(record, 8) as u64) * 0x1_0000_0000);
            println!(rt; "id {:016x}: {}", id.raw(), ids_text::text(id))
        }
        1 => leaf_line(rt, word(record, 4), low_16(word(record, 8))),
        2 => branch_line(
            rt,
            word(record, 4),
            low_16(word(record, 8)),
            low_8(word(record, 12)),
            low_8(word(record, 16)),
        ),
        3 => path_line(rt, cell_of(record)),
        4 => cell_line(rt, word(record, 4)),
        5 => child_line(rt, cell_of(record), word(record, 16), word(record, 20)),
        kind => println!(rt; "unknown {kind}"),
    }
}

// Reads until the record is full or the input ends, and answers how many bytes came: a record may come in two reads.
// Kept: `read_exact` does not say how many bytes a cut record has.
fn fill(input: &mut impl Read, record: &mut [u8; 32]) -> io::Result<usize>
    ensures { IfOk result (λ count. count ≤ 32) }
{
    let mut count: usize = 0;
    while count < 32 {
        let got = input.read(&mut record[count..])?;
        if got == 0 {
            break;
        }
        count += got;
    }
    Ok(count)
}

// Reads one record and writes its line; answers whether to go on.
fn one_record(rt: &impl Print, input: &mut impl Read) -> io::Result<bool> {
    let mut record = [0u8; 32];
    let count = fill(input, &mut record)?;
    if count == 0 {
        return Ok(false);
    }
    if count < 32 {
        println!(rt; "short {count}")?;
        return Ok(false);
    }
    record_line(rt, &record)?;
    Ok(true)
}

// A proved loop has to end, and nothing says that the input does. So the records are counted, up to a number that no input uses up.
fn main(rt: HostRuntime) -> io::Result<()> {
    let mut input = rt.stdin();
    for _ in 0..u64::MAX {
        if !one_record(&rt, &mut input)? {
            break;
        }
    }
    Ok(())
}
