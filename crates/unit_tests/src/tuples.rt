//! Keys, rows and an address to bytes and back, the bounds of values, and the order of cells.

ghost use Rattle.std.specs.Prelude.{◌≡◌, ◌∷◌, [], true, IfOk};
ghost use Rattle.tuple_codec.specs.Limits.{are_types};

use std::alloc::{AllocError, Global};
use std::cmp::Ordering;
use std::test::Fail;
use tuple_codec::{
    Address, Blob, Row, SqlType, Text, Value, decode_key, decode_row, encode_key, encode_row,
    is_text, value_fits,
};

fn text(alloc: Global, bytes: &[u8]) -> Result<Value, AllocError> {
    Ok(Value::Text(Text::from_slice(alloc, bytes)?))
}

fn row_of(alloc: Global, value: Value) -> Result<Row, AllocError>
    ensures { IfOk result (λ row. row ≡ value ∷ []) }
{
    let mut row = Row::new(alloc);
    row.push(value)?;
    Ok(row)
}

/// Whether the key of one value has these bytes and is read from them.
fn has_key(alloc: Global, kind: SqlType, value: Value, bytes: &[u8]) -> Result<bool, AllocError>
    requires { are_types (kind ∷ []) ≡ true }
{
    if !value_fits(&kind, &value) {
        return Ok(false);
    }
    let row = row_of(alloc, value)?;
    let key = encode_key(alloc, &[kind], &row)?;
    let read = decode_key(alloc, &[kind], bytes)?;
    Ok(key.as_slice() == bytes && read == Some(row))
}

/// Whether numbers, NULL, truths and texts have the keys that the format gives them.
fn keys_are_so(alloc: Global) -> Result<bool, AllocError> {
    let one = [1, 0x80, 0, 0, 0, 0, 0, 0, 1];
    let minus_one = [1, 0x7f, 0xff, 0xff, 0xff, 0xff, 0xff, 0xff, 0xff];
    Ok(
        has_key(alloc, SqlType::BigInt, Value::Int(1), &one)?
            && has_key(alloc, SqlType::BigInt, Value::Int(-1), &minus_one)?
            && has_key(alloc, SqlType::BigInt, Value::Null, &[0])?
            && has_key(alloc, SqlType::Bool, Value::Bool(true), &[1, 1])?
            && has_key(
                alloc,
                SqlType::Varchar(5),
                text(alloc, b"a")?,
                &[1, 0x61, 0, 0],
            )?,
    )
}

#[test]
fn keys_are_spelled_and_read(rt: HostRuntime) -> Result<(), Fail> {
    assert!(rt; keys_are_so(rt.alloc())?);
    let zero = text(rt.alloc(), b"a\0b")?;
    let bytes = [1, 0x61, 0, 0xff, 0x62, 0, 0];
    assert!(rt; has_key(rt.alloc(), SqlType::Varchar(5), zero, &bytes)?);
    Ok(())
}

#[test]
fn other_bytes_are_no_key(rt: HostRuntime) -> Result<(), Fail> {
    for (kind, bytes) in [
        (SqlType::Varchar(5), &[1u8, 0x61, 0][..]),
        (SqlType::Varchar(5), &[2][..]),
        (SqlType::Varchar(5), &[1, 0xff, 0, 0][..]),
        (SqlType::Varchar(5), &[0, 0][..]),
        (SqlType::Int, &[1, 0x80, 0, 0, 1, 0, 0, 0, 0][..]),
    ] {
        assert!(rt; decode_key(rt.alloc(), &[kind], bytes)?.is_none());
    }
    Ok(())
}

/// The bytes of a row of a text and NULL, if the text fits, where the row is read from them again.
fn row_with_null(alloc: Global, value: Value) -> Result<Option<Blob>, AllocError> {
    let types = [SqlType::Varchar(5), SqlType::BigInt];
    if !value_fits(&SqlType::Varchar(5), &value) {
        return Ok(None);
    }
    let mut row = row_of(alloc, value)?;
    row.push(Value::Null)?;
    let bytes = encode_row(alloc, &types, &row)?;
    let read = decode_row(alloc, &types, bytes.as_slice())?;
    Ok(if read == Some(row) { Some(bytes) } else { None })
}

#[test]
fn rows_are_spelled_and_read(rt: HostRuntime) -> Result<(), Fail> {
    let bytes = row_with_null(rt.alloc(), text(rt.alloc(), b"a")?)?;
    assert!(rt; bytes.is_some_and(|bytes| bytes.as_slice() == &[1, 0, 1, 0x61, 0][..]));
    assert!(rt; decode_row(rt.alloc(), &[SqlType::Varchar(5)], &[1, 0, 2, 0x61])?.is_none());
    Ok(())
}

#[test]
fn the_address_of_abc_is_printed_and_read(rt: HostRuntime) {
    let address = Address([
        0xdd, 0xaf, 0x35, 0xa1, 0x93, 0x61, 0x7a, 0xba, 0xcc, 0x41, 0x73, 0x49, 0xae, 0x20, 0x41,
        0x31, 0x12, 0xe6, 0xfa, 0x4e,
    ]);
    let text = b"rmnjb8cjc5tblj21ed4qs821649eduie";
    assert!(rt; address.text() == *text);
    assert!(rt; Address::read(text) == Some(address));
    let others = [&b"rmnjb8cjc5tblj21ed4qs821649eduiw"[..], &text[..31]];
    assert!(rt; others.iter().all(|other| Address::read(other).is_none()));
}

/// Whether a text is one of two characters at most.
fn fits_two(alloc: Global, bytes: &[u8]) -> Result<bool, AllocError> {
    Ok(value_fits(&SqlType::Varchar(2), &text(alloc, bytes)?))
}

#[test]
fn texts_fit_by_their_characters(rt: HostRuntime) -> Result<(), Fail> {
    for (bytes, fits) in [("éé".as_bytes(), true), (b"abc", false), (b"\xff", false)] {
        assert!(rt; fits_two(rt.alloc(), bytes)? == fits);
    }
    assert!(rt; is_text("é".as_bytes()) && !is_text(b"\xc3"));
    Ok(())
}

#[test]
fn texts_are_ordered(rt: HostRuntime) -> Result<(), Fail> {
    let shorter = text(rt.alloc(), b"a")?;
    let longer = text(rt.alloc(), b"a\0")?;
    assert!(rt; shorter.compare(&longer) == Ordering::Less);
    Ok(())
}
