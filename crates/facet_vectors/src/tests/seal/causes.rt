// Declarations and what `seal` answers to them, by the description of the language. A row is a line: the drafts in
// their order, with `; ` between two, and the answer to `seal` behind ` => `. The first draft is #16.

// One row for each cause, and one that is nearly the sixth.
pub const CAUSES: &str = "\
struct A 4 4 - x:#99@0 => refused UnknownShape #16
opaque A 0 1 .dep=+#16 => refused EagerForward #16
struct A 4 4 o x:#6@0 => refused Mismatch #16
opaque A unsized; struct B 0 1 - x:#16@0 => refused UnsizedPart #17
struct A 8 8 - x:#16@0 => refused InlineCycle #16
array #0 65536 => refused TooLarge #16
array #0 65535 => ok
struct A 6 4 - x:#6@0 => refused BadLayout #16
struct A 4 4 - x:#6@4 => refused FieldOutside #16
struct A 8 4 - x:#6@2 => refused FieldMisaligned #16
struct A 8 4 - x:#6@0 y:#5@2 => refused FieldOverlap #16
scalar A u8 0 1 - => refused ZeroSizedScalar #16
enum A 1 1 u8 - X=1 Y=1 => refused DiscriminantRepeated #16
enum A 1 1 u8 - X=256 => refused DiscriminantRange #16
struct A 4 4 e x:#6@0; set #16 => refused KeyNotOrd #17
scalar A unit 0 1 f => refused CapabilityMissing #16";

// Drafts that would cost much, or lead in circles, if they were taken at their word.
pub const HOSTILE: &str = "\
array #0 999999999; array #16 999999999; array #17 999999999 => refused TooLarge #16
array #0 300; array #16 300 => refused TooLarge #17
tuple #0 #0; 13 * tuple #< #< => refused TooLarge #29
tuple #0 #0; 12 * tuple #< #< => ok
struct A 4 4 - b:#17@0; struct B 4 4 - a:#16@0 => refused InlineCycle #16
struct A 8 8 - x:#17@0; option #16 => refused InlineCycle #16
struct A 8 8 - x:#17@0; box #16 => ok
struct A 5 1 - .packed x:#4@0 y:#6@1 => ok
enum A 1 1 i8 - X=-128 Y=127 => ok
enum A 1 1 i8 - X=-128 Y=128 => refused DiscriminantRange #16
array #0 65535; array #16 999999999 => refused TooLarge #17
array #3 999999999; tuple #16 #16 => refused TooLarge #16
struct A 999999999 1 - => refused TooLarge #16
struct A 4 4 - x:#6@999999999 => refused FieldOutside #16
struct A 4 4 - x:#999999999@0 => refused UnknownShape #16
struct A 8 0 -; option #16; list #16; array #16 3; tuple #4 #16; map #6 #16 => refused BadLayout #16
struct A 8 3 -; option #16; result #16 #7; tuple #4 #16 => refused BadLayout #16";

// One shape that meets two causes.
pub const TWO_CAUSES: &str = "\
opaque A 0 1 .dep=+#16 .dep=+#17 => refused UnknownShape #16
struct A 4 4 o x:#17@0 => refused UnknownShape #16
struct A 4 4 o .dep=+#16 x:#6@0 => refused EagerForward #16
struct A 8 8 - .dep=+#16 x:#16@0 => refused EagerForward #16
struct A 4 4 o x:#16@0 => refused Mismatch #16
struct A 65537 1 o => refused Mismatch #16
struct A 6 4 o x:#6@0 => refused Mismatch #16
enum A 0 1 u8 - .packed X=1 Y=1 => refused Mismatch #16
scalar A u8 0 1 o => refused Mismatch #16
scalar A unit 0 1 of => refused Mismatch #16
opaque A unsized; struct B 0 1 - x:#16@0 y:#17@0 => refused UnsizedPart #17
opaque A unsized; struct B 65537 1 - x:#16@0 => refused UnsizedPart #17
opaque A unsized; set #16 => refused UnsizedPart #17
struct A 65537 1 - x:#16@0 => refused InlineCycle #16
struct A 6 4 - x:#16@0 => refused InlineCycle #16
struct A 65537 2 - => refused TooLarge #16
struct A 65536 8 - x:#6@2; struct B 65537 4 - x:#16@0 => refused TooLarge #17
struct A 6 4 - x:#6@4 => refused BadLayout #16
struct A 6 4 - x:#6@1 => refused BadLayout #16
scalar A u8 0 0 - => refused BadLayout #16
enum A 1 0 u8 - X=1 Y=1 => refused BadLayout #16
struct A 4 4 - x:#6@2 y:#6@0 => refused FieldOutside #16
enum A 0 1 u8 - X=1 Y=1 => refused FieldOutside #16
struct A 8 4 - x:#6@2 y:#6@0 => refused FieldMisaligned #16
struct A 8 4 s x:#6@2 => refused FieldMisaligned #16
enum A 4 4 u8 - X=1(x:#6@0) Y=1 => refused FieldOverlap #16
enum A 4 4 u8 d X=256(x:#6@0) => refused FieldOverlap #16
enum A 1 1 u8 d X=256 Y=256 => refused DiscriminantRepeated #16
enum A 1 1 u8 d X=256 => refused DiscriminantRange #16";

// For each cause, in their order, drafts of which the last meets it, and none meets an earlier one. `%` is the id of the
// first draft.
pub const TEMPLATES: &str = "\
struct A 4 4 - x:#999@0 => UnknownShape
opaque A 0 1 .dep=+#% => EagerForward
struct A 4 4 o x:#6@0 => Mismatch
opaque A unsized; struct B 0 1 - x:#%@0 => UnsizedPart
struct A 8 8 - x:#%@0 => InlineCycle
array #0 65536 => TooLarge
struct A 6 4 - x:#6@0 => BadLayout
struct A 4 4 - x:#6@4 => FieldOutside
struct A 8 4 - x:#6@2 => FieldMisaligned
struct A 8 4 - x:#6@0 y:#5@2 => FieldOverlap
scalar A u8 0 1 - => ZeroSizedScalar
enum A 1 1 u8 - X=1 Y=1 => DiscriminantRepeated
enum A 1 1 u8 - X=256 => DiscriminantRange
struct A 4 4 e x:#6@0; set #% => KeyNotOrd
scalar A unit 0 1 f => CapabilityMissing";

// Scripts with the answers to all their lines: what a refusal leaves, and drafts over sealed shapes.
pub const SEAL_SCRIPTS: &str = "\
seal => ok
seal => ok
end

shape struct A 4 4 - x:#99@0 => #16
shape option #16 => #17
seal => refused UnknownShape #16
shape option #16 => no such shape
put a #16 1 => no such shape
shape struct A 4 4 - x:#6@0 => #16
put a #16 1 => no such shape
seal => ok
put a #16 1 => wrong shape
shape option #16 => #17
seal => ok
seal => ok
end

shape struct A 4 4 e x:#6@0 => #16
seal => ok
shape set #16 => #17
seal => refused KeyNotOrd #17
shape list #16 => #17
shape map #17 #6 => #18
seal => refused KeyNotOrd #18
shape map #6 #16 => #17
seal => ok
shape box #16 => #18
seal => ok
shape set #18 => #19
seal => refused KeyNotOrd #19
end

shape opaque A unsized => #16
seal => ok
shape list #6 => #17
shape list #16 => #18
seal => refused UnsizedPart #18
shape slice #16 => #17
seal => ok
shape boxed_slice #17 => #18
seal => refused UnsizedPart #18
end

shape array #0 65534 => #16
seal => ok
shape option #16 => #17
seal => ok
shape option #17 => #18
seal => refused TooLarge #18
shape list #17 => #18
shape struct A 4 4 - x:#19@0 => #19
seal => refused InlineCycle #19
shape struct A 4 4 - x:#18@0 => #18
seal => refused InlineCycle #18
shape enum A 1 1 u8 - X(x:#16@0) Y(x:#0@0) => #18
seal => refused TooLarge #18
end

shape option #16 => no such shape
shape list #16 => no such shape
shape set #16 => no such shape
shape slice #16 => no such shape
shape box #16 => no such shape
shape boxed_slice #16 => no such shape
shape array #16 3 => no such shape
shape map #16 #6 => no such shape
shape map #6 #16 => no such shape
shape result #16 #6 => no such shape
shape result #6 #16 => no such shape
shape tuple #16 => no such shape
shape tuple #6 #16 => no such shape
shape opaque A 0 1 .param=T:#99999 => refused MissingDeclId
shape opaque A 0 1 .id=0 .param=T:#6 => refused MissingDeclId
shape slice #15 => #16
shape tuple #16 #17 => no such shape
shape box #16 => wrong shape
shape boxed_slice #6 => wrong shape
shape boxed_slice #16 => #17
seal => ok
shape boxed_slice #17 => wrong shape
shape boxed_slice #16 => #18
seal => ok
end";
