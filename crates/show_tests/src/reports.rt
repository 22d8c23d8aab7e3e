//! Reports written by hand.
ghost use Rattle.std.specs.Prelude.{IfOk};
ghost use Rattle.std.specs.List.{All};
ghost use Rattle.std.specs.Str.{IsAscii};

use arrayvec::ArrayVec;
use report_text::report_text;
use std::alloc::{AllocError, Global};

// The name of these bytes, where they are ASCII.
fn named(bytes: &[u8]) -> ArrayVec<u8, 16>
    ensures { IsAscii result.items }
{
    let mut name = ArrayVec::new();
    if bytes.is_ascii() {
        let _ = name.try_extend_from_slice(bytes);
    }
    name
}

fn names_of(alloc: Global, words: &[&[u8]]) -> Result<Vec<ArrayVec<u8, 16>>, AllocError>
    ensures { IfOk result (λ names. All (λ name. IsAscii name.items) names.items) }
{
    let mut names = Vec::new(alloc);
    for word in words {
        names.push(named(word))?;
    }
    Ok(names)
}

// The bytes of each drone, the cues, the names, the milliseconds, the nodes, the packets of each drone, and the report.
type Row<'a> = (
    &'a [u32],
    u32,
    &'a [&'a [u8]],
    u32,
    u32,
    &'a [u32],
    &'a [u8],
);

const LONG: &[u8] = b"sixteen_bytes_of";

const REPORTS: &[Row] = &[
    (
        &[34, 62],
        3,
        &[b"a", b"b"],
        9000,
        3,
        &[3, 4],
        b"{\"bytes\":[34,62],\"cues\":3,\"drones\":[\"a\",\"b\"],\
        \"duration_ms\":9000,\"nodes\":3,\"packets\":[3,4]}\n",
    ),
    (
        &[28],
        1,
        &[b"solo"],
        2000,
        0,
        &[3],
        b"{\"bytes\":[28],\"cues\":1,\"drones\":[\"solo\"],\
        \"duration_ms\":2000,\"nodes\":0,\"packets\":[3]}\n",
    ),
    // Each number as large as a show lets it be.
    (
        &[
            4096, 4095, 4094, 4093, 4092, 4091, 4090, 4089, 4088, 4087, 4086, 4085, 4084, 4083,
            4082, 4081, 4080, 4079, 4078, 4077, 4076, 4075, 4074, 4073, 4072, 4071, 4070, 4069,
            4068, 4067, 4066, 4065,
        ],
        1000,
        &[LONG; 32],
        65_535_000,
        64_631_280,
        &[172; 32],
        b"{\"bytes\":[4096,4095,4094,4093,4092,4091,4090,4089,4088,4087,4086,4085,4084,4083,4082,4081,\
        4080,4079,4078,4077,4076,4075,4074,4073,4072,4071,4070,4069,4068,4067,4066,4065],\"cues\":10\
        00,\"drones\":[\"sixteen_bytes_of\",\"sixteen_bytes_of\",\"sixteen_bytes_of\",\"sixteen_bytes_of\",\"\
        sixteen_bytes_of\",\"sixteen_bytes_of\",\"sixteen_bytes_of\",\"sixteen_bytes_of\",\"sixteen_bytes_\
        of\",\"sixteen_bytes_of\",\"sixteen_bytes_of\",\"sixteen_bytes_of\",\"sixteen_bytes_of\",\"sixteen_b\
        ytes_of\",\"sixteen_bytes_of\",\"sixteen_bytes_of\",\"sixteen_bytes_of\",\"sixteen_bytes_of\",\"sixt\
        een_bytes_of\",\"sixteen_bytes_of\",\"sixteen_bytes_of\",\"sixteen_bytes_of\",\"sixteen_bytes_of\",\
        \"sixteen_bytes_of\",\"sixteen_bytes_of\",\"sixteen_bytes_of\",\"sixteen_bytes_of\",\"sixteen_bytes\
        _of\",\"sixteen_bytes_of\",\"sixteen_bytes_of\",\"sixteen_bytes_of\",\"sixteen_bytes_of\"],\"duratio\
        n_ms\":65535000,\"nodes\":64631280,\"packets\":[172,172,172,172,172,172,172,172,172,172,172,172\
        ,172,172,172,172,172,172,172,172,172,172,172,172,172,172,172,172,172,172,172,172]}\n",
    ),
];

fn is_report(alloc: Global, row: &Row) -> Result<bool, AllocError> {
    let (bytes, cues, words, duration_ms, nodes, packets, wanted) = *row;
    let names = names_of(alloc, words)?;
    let text = report_text(alloc, bytes, cues, &names, duration_ms, nodes, packets)?;
    Ok(text.as_slice() == wanted)
}

#[test]
fn reports(rt: HostRuntime) {
    for (k, row) in REPORTS.iter().enumerate() {
        assert!(rt; matches!(is_report(rt.alloc(), row), Ok(true)), "row {k}");
    }
}
