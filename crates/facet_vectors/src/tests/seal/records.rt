// What a shape says of itself. Rows are read as those of the causes.

// Representations, and records with an order.
pub const MISMATCHES: &str = "\
enum A 1 1 u8 - X => ok
enum A 1 1 u8 - .packed X => refused Mismatch #16
enum A 1 1 u8 - .repr=rust .packed X => refused Mismatch #16
enum A 1 1 u8 - .repr=transparent .packed X => refused Mismatch #16
enum A 1 1 u8 - .repr=transparent X => ok
struct A 4 4 - .packed x:#6@0 => ok
struct A 4 4 - .repr=c .packed x:#6@0 => ok
struct A 4 4 - .repr=rust .packed x:#6@0 => ok
struct A 4 4 - .repr=transparent x:#6@0 => ok
struct A 4 4 - .repr=transparent .packed x:#6@0 => refused Mismatch #16
struct A 0 1 - .repr=transparent .packed => refused Mismatch #16
tuple_struct A 4 4 - .repr=transparent .packed 0:#6@0 => refused Mismatch #16
struct A 4 4 e x:#6@0 => ok
struct A 4 4 ep x:#6@0 => ok
struct A 4 4 epo x:#6@0 => ok
struct A 4 4 hgdc x:#6@0 => ok
struct A 4 4 p x:#6@0 => refused Mismatch #16
struct A 4 4 o x:#6@0 => refused Mismatch #16
struct A 4 4 po x:#6@0 => refused Mismatch #16
struct A 4 4 eo x:#6@0 => refused Mismatch #16
struct A 4 4 phg x:#6@0 => refused Mismatch #16
tuple_struct A 4 4 p 0:#6@0 => refused Mismatch #16
tuple_struct A 4 4 ep 0:#6@0 => ok
enum A 1 1 u8 epo X => ok
enum A 1 1 u8 p X => refused Mismatch #16
enum A 1 1 u8 eo X => refused Mismatch #16
scalar A u32 4 4 ep => ok
scalar A u32 4 4 p => refused Mismatch #16
scalar A u32 4 4 eo => refused Mismatch #16
scalar A unit 0 1 epo => ok
scalar A unit 0 1 po => refused Mismatch #16
opaque A 0 1; enum B 1 1 u8 - .packed X; struct C 4 4 o x:#6@0 => refused Mismatch #17";

// Discriminants, which are the index where none is given.
pub const DISCRIMINANTS: &str = "\
enum A 1 1 u8 - X Y Z => ok
enum A 1 1 u8 - X X X => ok
enum A 1 1 u8 - X=5 Y Z => ok
enum A 1 1 u8 - X=1 Y => refused DiscriminantRepeated #16
enum A 1 1 u8 - X Y=0 => refused DiscriminantRepeated #16
enum A 1 1 u8 - X=2 Y Z => refused DiscriminantRepeated #16
enum A 1 1 u8 - X=1 Y=2 Z=1 => refused DiscriminantRepeated #16
enum A 1 1 i8 - X=-1 Y=1 => ok
enum A 1 1 i8 - X=-1 Y=-1 => refused DiscriminantRepeated #16
enum A 8 4 u8 - X=1(x:#6@4) Y=1{y:#6@4} => refused DiscriminantRepeated #16
enum A 8 8 i64 - X=-9223372036854775808 Y=-9223372036854775808 => refused DiscriminantRepeated #16
enum A 1 1 u8 - X=256 Y=256 => refused DiscriminantRepeated #16
enum A 1 1 u8 - X=0 Y=255 => ok
enum A 1 1 u8 - X=-1 => refused DiscriminantRange #16
enum A 1 1 u8 - X Y=256 => refused DiscriminantRange #16
enum A 2 2 u16 - X=0 Y=65535 => ok
enum A 2 2 u16 - X=-1 => refused DiscriminantRange #16
enum A 2 2 u16 - X=65536 => refused DiscriminantRange #16
enum A 4 4 u32 - X=0 Y=4294967295 => ok
enum A 4 4 u32 - X=-1 => refused DiscriminantRange #16
enum A 4 4 u32 - X=4294967296 => refused DiscriminantRange #16
enum A 8 8 u64 - X=0 Y=9223372036854775807 => ok
enum A 8 8 u64 - X=-1 => refused DiscriminantRange #16
enum A 8 8 usize - X=0 Y=9223372036854775807 => ok
enum A 8 8 usize - X=-1 => refused DiscriminantRange #16
enum A 1 1 i8 - X=-128 Y=127 => ok
enum A 1 1 i8 - X=-129 => refused DiscriminantRange #16
enum A 1 1 i8 - X=128 => refused DiscriminantRange #16
enum A 2 2 i16 - X=-32768 Y=32767 => ok
enum A 2 2 i16 - X=-32769 => refused DiscriminantRange #16
enum A 2 2 i16 - X=32768 => refused DiscriminantRange #16
enum A 4 4 i32 - X=-2147483648 Y=2147483647 => ok
enum A 4 4 i32 - X=-2147483649 => refused DiscriminantRange #16
enum A 4 4 i32 - X=2147483648 => refused DiscriminantRange #16
enum A 8 8 i64 - X=-9223372036854775808 Y=9223372036854775807 => ok
enum A 8 8 isize - X=-9223372036854775808 Y=9223372036854775807 => ok
enum A 1 1 rust - X=-9223372036854775808 Y=9223372036854775807 => ok
enum A 1 1 rust - X=256 => ok
enum A 8 4 u8 - X(x:#6@4) Y=256{y:#6@4} => refused DiscriminantRange #16";

// Enums of so many variants without discriminants, behind their layout and representation.
pub const VARIANTS: [(&str, usize, &str); 9] = [
    ("1 1 u8", 256, "ok"),
    ("1 1 u8", 257, "refused DiscriminantRange #16"),
    ("1 1 i8", 128, "ok"),
    ("1 1 i8", 129, "refused DiscriminantRange #16"),
    ("1 1 rust", 256, "ok"),
    ("1 1 rust", 257, "refused DiscriminantRange #16"),
    ("2 2 u16", 257, "ok"),
    ("2 2 i16", 257, "ok"),
    ("8 8 isize", 257, "ok"),
];

// Leaves without a byte.
pub const LEAVES: &str = "\
scalar A u8 0 4 - => refused ZeroSizedScalar #16
scalar A bool 0 1 - => refused ZeroSizedScalar #16
scalar A char 0 4 - => refused ZeroSizedScalar #16
scalar A String 0 8 - => refused ZeroSizedScalar #16
scalar A i128 0 16 epohgdcsf => refused ZeroSizedScalar #16
scalar A u32 4 4 -; scalar B u32 0 4 -; scalar C u32 0 4 - => refused ZeroSizedScalar #17";

// Capabilities of each kind: all that it has, and one that it hasn't.
pub const CAPABILITIES: &str = "\
scalar A unit 0 1 epohgdc => ok
scalar A unit 0 1 s => refused CapabilityMissing #16
scalar A unit 0 1 epohgdcf => refused CapabilityMissing #16
scalar A u32 4 4 epohgdcsf; scalar B String 24 8 epohgdcsf; scalar C char 4 4 epohgdcsf => ok
scalar A bool 1 1 epohgdcsf; scalar B i128 16 16 epohgdcsf; scalar C usize 8 8 sf => ok
struct A 4 4 epohgdc x:#6@0 => ok
struct A 4 4 s x:#6@0 => refused CapabilityMissing #16
struct A 4 4 f x:#6@0 => refused CapabilityMissing #16
struct A 4 4 epohgdcsf x:#6@0 => refused CapabilityMissing #16
struct A 4 4 s .repr=transparent x:#6@0 => refused CapabilityMissing #16
tuple_struct A 4 4 epohgdc 0:#6@0 => ok
tuple_struct A 4 4 s 0:#6@0 => refused CapabilityMissing #16
enum A 1 1 u8 epohgc X => ok
enum A 1 1 u8 d X => refused CapabilityMissing #16
enum A 1 1 u8 s X => refused CapabilityMissing #16
enum A 1 1 u8 f X => refused CapabilityMissing #16
option #6; result #6 #7; list #6; map #6 #7; set #6; array #6 3; box #6; tuple #6 #7; slice #6; boxed_slice #24 => ok
struct A 4 4 epohgdc x:#6@0; enum B 1 1 u8 d X; enum C 1 1 u8 d X => refused CapabilityMissing #17";
