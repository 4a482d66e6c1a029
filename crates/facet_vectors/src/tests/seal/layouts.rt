// Sizes, layouts, offsets and names. Rows are read as those of the causes.

// Sizes and numbers of parts at their greatest, and one more. An array of the unit has as many parts more than one as
// it has elements.
pub const SIZES: &str = "\
struct A 65536 1 - => ok
struct A 65537 1 - => refused TooLarge #16
opaque A 65536 1 => ok
opaque A 65537 1 => refused TooLarge #16
enum A 65536 1 u8 - X => ok
enum A 65537 1 u8 - X => refused TooLarge #16
scalar A u8 65537 1 - => refused TooLarge #16
array #5 32768 => ok
array #5 32769 => refused TooLarge #16
array #8 4096 => ok
array #8 4097 => refused TooLarge #16
array #4 65535 => ok
array #4 65536 => refused TooLarge #16
struct A 65532 4 -; option #16 => ok
struct A 65536 4 -; option #16 => refused TooLarge #17
struct A 65528 8 -; result #7 #16 => ok
struct A 65536 8 -; result #7 #16 => refused TooLarge #17
struct A 65532 4 -; tuple #16 #6 => ok
struct A 65536 4 -; tuple #16 #4 => refused TooLarge #17
struct A 65536 4 -; list #16; box #16; slice #16; boxed_slice #19 => ok
array #0 65534; struct A 0 1 - x:#16@0 => ok
array #0 65535; struct A 0 1 - x:#16@0 => refused TooLarge #17
array #0 32766; array #0 32767; tuple_struct A 0 1 - 0:#16@0 1:#17@0 => ok
array #0 32767; tuple_struct A 0 1 - 0:#16@0 1:#16@0 => refused TooLarge #17
array #0 32766; array #0 32767; enum A 1 1 u8 - X(x:#16@0) Y(y:#17@0) => ok
array #0 32767; enum A 1 1 u8 - X(x:#16@0) Y(y:#16@0) => refused TooLarge #17
array #0 65534; option #16 => ok
array #0 65535; option #16 => refused TooLarge #17
array #0 32766; array #0 32767; result #16 #17 => ok
array #0 32767; result #16 #16 => refused TooLarge #17
array #0 32766; array #0 32767; tuple #16 #17 => ok
array #0 32767; tuple #16 #16 => refused TooLarge #17
array #0 254; array #16 257 => ok
array #0 255; array #16 256 => refused TooLarge #17
array #0 65535; array #16 0 => ok
array #0 65535; array #16 1 => refused TooLarge #17
array #0 65535; list #16; map #6 #16; box #16; slice #16; boxed_slice #20 => ok
array #0 65535; list #16; tuple #17 #17 => ok
struct A 0 1 - x:#17@0; array #0 65535 => refused TooLarge #16";

// Drafts behind #17, which has a name of a few letters. The name of #24 has 65,513 bytes more than that: a tuple of k
// shapes has as many bytes as their names and 2k more.
pub const LONG_NAMES: &str = "\
tuple #16 #16 #16 #16 #16 #16 #16 #16 #16; tuple #16 #16 #16 #16 #16 #16 #16 #16 #17; \
tuple #18 #18 #18 #18; tuple #18 #18 #18 #19; \
tuple #20 #20 #20 #20 #20 #20 #20 #20 #20; tuple #20 #20 #20 #20 #20 #20 #20 #20 #21; \
tuple #22 #22 #22 #22 #22 #22 #22 #23";

// What is made of #24, and how many bytes its name has more than that of #24.
pub const NAMED: [(&str, usize); 17] = [
    ("option #24", 8),
    ("list #24", 5),
    ("set #24", 10),
    ("box #24", 5),
    ("array #24 1", 5),
    ("array #24 22", 6),
    ("slice #24", 2),
    ("slice #24; boxed_slice #25", 7),
    ("map #0 #24", 14),
    ("map #24 #0", 14),
    ("result #0 #24", 12),
    ("result #24 #0", 12),
    ("tuple #24", 3),
    ("tuple #0 #24", 6),
    ("tuple #24 #0 #0", 10),
    ("list #24; list #25", 10),
    ("tuple #0; tuple #25 #24", 9),
];

// Layouts.
pub const LAYOUTS: &str = "\
opaque A 0 1 => ok
opaque A 4 4 => ok
opaque A 12 4 => ok
opaque A 65536 65536 => ok
opaque A 0 536870912 => ok
opaque A 0 0 => refused BadLayout #16
opaque A 4 0 => refused BadLayout #16
opaque A 0 3 => refused BadLayout #16
opaque A 6 6 => refused BadLayout #16
opaque A 0 536870911 => refused BadLayout #16
opaque A 6 4 => refused BadLayout #16
opaque A 4 8 => refused BadLayout #16
struct A 0 1 - => ok
struct A 8 3 - .packed => refused BadLayout #16
enum A 6 4 u8 - X => refused BadLayout #16
scalar A unit 0 1 - => ok
scalar A unit 0 8 - => ok
scalar A unit 1 1 - => refused BadLayout #16
scalar A unit 0 3 - => refused BadLayout #16
scalar A bool 1 1 -; scalar B char 4 4 -; scalar C String 24 8 - => ok
scalar A u8 1 1 -; scalar B u16 2 2 -; scalar C u32 4 4 -; scalar D u64 8 8 - => ok
scalar A u128 16 16 -; scalar B usize 8 8 -; scalar C i8 1 1 -; scalar D i16 2 2 - => ok
scalar A i32 4 4 -; scalar B i64 8 8 -; scalar C i128 16 16 -; scalar D isize 8 8 - => ok
scalar A bool 2 1 - => refused BadLayout #16
scalar A char 4 2 - => refused BadLayout #16
scalar A char 1 1 - => refused BadLayout #16
scalar A String 24 4 - => refused BadLayout #16
scalar A String 16 8 - => refused BadLayout #16
scalar A u8 2 2 - => refused BadLayout #16
scalar A u16 2 1 - => refused BadLayout #16
scalar A u32 8 4 - => refused BadLayout #16
scalar A u32 8 8 - => refused BadLayout #16
scalar A u64 4 4 - => refused BadLayout #16
scalar A u128 16 8 - => refused BadLayout #16
scalar A usize 4 4 - => refused BadLayout #16
scalar A i8 4 1 - => refused BadLayout #16
scalar A i16 4 2 - => refused BadLayout #16
scalar A i32 2 2 - => refused BadLayout #16
scalar A i64 16 8 - => refused BadLayout #16
scalar A i128 32 16 - => refused BadLayout #16
scalar A isize 8 4 - => refused BadLayout #16
scalar A u8 0 3 - => refused BadLayout #16
struct A 4 4 - x:#6@0 => ok
struct A 8 8 - x:#6@0 => ok
struct A 4 2 - x:#6@0 => refused BadLayout #16
struct A 4 1 - x:#6@0 => refused BadLayout #16
struct A 4 1 - .packed x:#6@0 => ok
struct A 8 4 - x:#4@4 y:#7@0 => refused BadLayout #16
tuple_struct A 4 2 - 0:#6@0 => refused BadLayout #16
tuple_struct A 4 2 - .packed 0:#6@0 => ok
opaque A 0 8; struct B 8 8 - x:#16@0 => ok
opaque A 0 8; struct B 8 4 - x:#16@0 => refused BadLayout #17
array #7 0; struct A 0 8 - x:#16@0 => ok
array #7 0; struct A 0 4 - x:#16@0 => refused BadLayout #17
enum A 8 4 u8 - X(x:#6@4) => ok
enum A 8 2 u8 - X(x:#6@4) => refused BadLayout #16
enum A 8 2 u8 - X Y{x:#5@2,y:#6@4} => refused BadLayout #16
enum A 1 1 rust - X => ok
enum A 1 1 u8 - X => ok
enum A 1 1 i8 - X => ok
enum A 2 2 u16 - X => ok
enum A 2 1 u16 - X => refused BadLayout #16
enum A 2 2 i16 - X => ok
enum A 2 1 i16 - X => refused BadLayout #16
enum A 4 4 u32 - X => ok
enum A 4 2 u32 - X => refused BadLayout #16
enum A 4 4 i32 - X => ok
enum A 4 2 i32 - X => refused BadLayout #16
enum A 8 8 u64 - X => ok
enum A 8 4 u64 - X => refused BadLayout #16
enum A 8 8 i64 - X => ok
enum A 8 4 i64 - X => refused BadLayout #16
enum A 8 8 usize - X => ok
enum A 8 4 usize - X => refused BadLayout #16
enum A 8 8 isize - X => ok
enum A 8 4 isize - X => refused BadLayout #16";

// Where fields and tags lie.
pub const FIELDS: &str = "\
struct A 8 4 - x:#6@4 => ok
struct A 4 4 - x:#6@1 => refused FieldOutside #16
struct A 8 4 - x:#6@8 => refused FieldOutside #16
struct A 8 4 - x:#6@0 y:#6@5 => refused FieldOutside #16
struct A 0 1 - x:#4@0 => refused FieldOutside #16
struct A 1 1 - x:#4@0 => ok
tuple_struct A 4 4 - 0:#6@4 => refused FieldOutside #16
struct A 4 1 - .packed x:#6@1 => refused FieldOutside #16
struct A 5 1 - .packed x:#6@1 => ok
struct A 4 4 - x:#0@4 => ok
struct A 4 4 - x:#0@5 => refused FieldOutside #16
enum A 8 4 u8 - X(x:#6@8) => refused FieldOutside #16
enum A 8 4 u8 - X Y{x:#6@4,y:#6@5} => refused FieldOutside #16
enum A 0 1 u8 - => refused FieldOutside #16
enum A 1 1 u8 - => ok
enum A 0 1 rust - => refused FieldOutside #16
enum A 0 2 u16 - X => refused FieldOutside #16
enum A 0 8 i64 - X => refused FieldOutside #16
struct A 8 4 - x:#6@1 => refused FieldMisaligned #16
struct A 8 4 - x:#6@3 => refused FieldMisaligned #16
struct A 8 4 - x:#4@7 y:#5@5 => refused FieldMisaligned #16
struct A 8 4 - x:#4@7 y:#5@4 => ok
tuple_struct A 8 4 - 0:#6@2 => refused FieldMisaligned #16
struct A 8 4 - .packed x:#6@2 => ok
tuple_struct A 8 4 - .packed 0:#6@1 => ok
array #6 0; struct A 4 4 - x:#16@4 => ok
array #6 0; struct A 4 4 - x:#16@2 => refused FieldMisaligned #17
enum A 8 4 u8 - X(x:#6@2) => refused FieldMisaligned #16
enum A 8 4 u8 - X Y{x:#4@1,y:#5@3} => refused FieldMisaligned #16
struct A 8 4 - x:#6@0 y:#6@4 => ok
struct A 8 4 - x:#6@4 y:#6@0 => ok
struct A 4 4 - x:#6@0 y:#6@0 => refused FieldOverlap #16
struct A 8 4 - x:#6@4 y:#5@6 => refused FieldOverlap #16
struct A 8 4 - x:#5@6 y:#6@4 => refused FieldOverlap #16
struct A 8 4 - x:#4@0 y:#6@4 z:#4@0 => refused FieldOverlap #16
struct A 3 1 - x:#4@0 y:#4@1 z:#4@2 => ok
tuple_struct A 8 4 - 0:#6@0 1:#5@2 => refused FieldOverlap #16
struct A 5 1 - .packed x:#6@0 y:#4@4 => ok
struct A 5 1 - .packed x:#6@0 y:#4@3 => refused FieldOverlap #16
struct A 5 1 - .packed x:#6@1 y:#4@1 => refused FieldOverlap #16
struct A 4 4 - x:#6@0 y:#0@0 z:#0@2 => ok
array #4 60000; struct A 60001 1 - x:#16@0 y:#4@60000 => ok
array #4 60000; struct A 60001 1 - x:#16@0 y:#4@59999 => refused FieldOverlap #17
enum A 2 1 u8 - X(x:#4@1) => ok
enum A 2 1 u8 - X(x:#4@0) => refused FieldOverlap #16
enum A 2 1 rust - X(x:#4@1) => ok
enum A 2 1 rust - X(x:#4@0) => refused FieldOverlap #16
enum A 4 2 u16 - X(x:#4@2) => ok
enum A 4 2 u16 - X(x:#4@1) => refused FieldOverlap #16
enum A 4 2 i16 - X(x:#4@1) => refused FieldOverlap #16
enum A 8 4 u32 - X(x:#4@4) => ok
enum A 8 4 u32 - X(x:#4@3) => refused FieldOverlap #16
enum A 8 4 i32 - X(x:#4@3) => refused FieldOverlap #16
enum A 16 8 u64 - X(x:#4@8) => ok
enum A 16 8 u64 - X(x:#4@7) => refused FieldOverlap #16
enum A 16 8 i64 - X(x:#4@7) => refused FieldOverlap #16
enum A 16 8 usize - X(x:#4@7) => refused FieldOverlap #16
enum A 16 8 isize - X(x:#4@8) => ok
enum A 16 8 isize - X(x:#4@7) => refused FieldOverlap #16
enum A 2 1 u8 - X(x:#4@1) Y(x:#4@1) Z{x:#4@1} => ok
enum A 4 1 u8 - X Y(x:#4@1,y:#4@1) => refused FieldOverlap #16
enum A 4 1 u8 - X(x:#4@1) Y{y:#4@0} => refused FieldOverlap #16
enum A 1 1 u8 - X(x:#0@0) => ok
array #4 60000; enum A 60001 1 u8 - X(x:#16@1) Y(x:#16@1) => refused TooLarge #17
array #4 30000; enum A 30001 1 u8 - X(x:#16@1) Y(x:#16@1) => ok";
