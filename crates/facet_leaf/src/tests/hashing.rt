use crate::hashing::fnv::Fnv128;
use crate::hashing::hash_proxy::HashProxy;
use crate::hashing::hash_sink::HashSink;
use crate::hashing::recorder::Recorder;
use crate::leaf::Leaf;
use crate::scalars::scalar::Scalar;
use facet_base::Text;
use std::test::Fail;

// Makes a write of each type: first of the unsigned numbers, whose bytes are 4 to 42 from the highest to the
// lowest of each, then of the signed numbers from -1 to -6.
fn write_each_type<H: HashSink>(sink: &mut H) {
    sink.write(&[1, 2, 3]);
    sink.write_u8(0x04);
    sink.write_u16(0x0506);
    sink.write_u32(0x0708090a);
    sink.write_u64(0x0b0c0d0e0f101112);
    sink.write_u128(0x131415161718191a1b1c1d1e1f202122);
    sink.write_usize(0x232425262728292a);
    sink.write_i8(-1);
    sink.write_i16(-2);
    sink.write_i32(-3);
    sink.write_i64(-4);
    sink.write_i128(-5);
    sink.write_isize(-6);
}

// What those writes are in bytes.
const EACH_TYPE: &[u8] = b"\x01\x02\x03\x04\x06\x05\x0a\x09\x08\x07\x12\x11\x10\x0f\x0e\x0d\x0c\x0b\
    \x22\x21\x20\x1f\x1e\x1d\x1c\x1b\x1a\x19\x18\x17\x16\x15\x14\x13\x2a\x29\x28\x27\x26\x25\x24\x23\
    \xff\xfe\xff\xfd\xff\xff\xff\xfc\xff\xff\xff\xff\xff\xff\xff\
    \xfb\xff\xff\xff\xff\xff\xff\xff\xff\xff\xff\xff\xff\xff\xff\xff\xfa\xff\xff\xff\xff\xff\xff\xff";

#[test]
fn the_digest_is_that_of_the_standard(rt: HostRuntime) {
    for (bytes, digest, finish) in [
        (
            b"".as_slice(),
            0x6c62272e07bb014262b821756295c58d,
            0x62b821756295c58d,
        ),
        (
            b"\0".as_slice(),
            0xd228cb69101a8caf78912b704e4a147f,
            0x78912b704e4a147f,
        ),
        (
            b"foobar".as_slice(),
            0x343e1662793c64bf6f0d3597ba446f18,
            0x6f0d3597ba446f18,
        ),
    ] {
        let mut sink = Fnv128::new();
        sink.write(bytes);
        assert_eq!(rt; sink.digest(), digest, "at {bytes:?}");
        assert_eq!(rt; sink.finish(), finish, "at {bytes:?}");
    }
}

#[test]
fn each_type_has_its_bytes(rt: HostRuntime) -> Result<(), Fail> {
    let mut digest = Fnv128::new();
    write_each_type(&mut digest);
    assert_eq!(rt; digest.digest(), 0xabea2cba10a6e55a2e63da9f915542);
    let mut sink = Recorder::new(rt.alloc(), 81)?;
    let mut proxy = HashProxy::new(&mut sink);
    write_each_type(&mut proxy);
    assert_eq!(rt; proxy.finish(), 81);
    assert_eq!(rt; sink.bytes(), EACH_TYPE);
    Ok(())
}

#[test]
fn a_recorder_keeps_the_first_bytes_and_counts_all(rt: HostRuntime) -> Result<(), Fail> {
    let alloc = rt.alloc();
    let mut sink = Recorder::new(alloc, 5)?;
    Scalar::String(Text::new(alloc, "aé")?).hash_into(&mut sink);
    Scalar::I16(-2).hash_into(&mut sink);
    assert_eq!(rt; sink.bytes(), b"a\xc3\xa9\xff\xfe".as_slice());
    assert_eq!(rt; sink.finish(), 6);
    Ok(())
}
