// What shapes refer to, what lies in them, and what they reach. Rows are read as those of the causes.

// References, each of which leads to the first id without a shape, or to the last one with a shape.
pub const REFERENCES: &str = "\
struct A 4 4 - x:#17@0 => refused UnknownShape #16
tuple_struct A 4 4 - 0:#17@0 => refused UnknownShape #16
struct A 8 4 - x:#6@0 y:#17@4 => refused UnknownShape #16
enum A 8 4 u8 - X(x:#17@4) => refused UnknownShape #16
enum A 8 4 u8 - X Y{x:#6@4,y:#17@4} => refused UnknownShape #16
opaque A 0 1 .id=1 .param=T:#17 => refused UnknownShape #16
opaque A 0 1 .mod=m .param=T:#6 .param=U:#17 => refused UnknownShape #16
opaque A unsized .id=1 .param=T:#17 => refused UnknownShape #16
struct A 4 4 - .id=1 .param=T:#17 x:#6@0 => refused UnknownShape #16
enum A 1 1 u8 - .id=1 .param=T:#17 X => refused UnknownShape #16
opaque A 0 1 .dep=+#17 => refused UnknownShape #16
opaque A 0 1 .dep=-#17 => refused UnknownShape #16
opaque A 0 1 .dep==#17 => refused UnknownShape #16
opaque A 0 1 .dep=+#6 .dep=-#7 .dep==#17 => refused UnknownShape #16
struct A 4 4 - .dep=+#17 x:#6@0 => refused UnknownShape #16
enum A 1 1 u8 - .dep=+#17 X => refused UnknownShape #16
opaque A 0 1; struct B 4 4 - x:#18@0; struct C 4 4 - x:#19@0 => refused UnknownShape #18
opaque A 0 1; opaque B 0 1 .dep=+#18; opaque C 0 1 .dep=+#19 => refused UnknownShape #18
struct A 4 4 - x:#17@0; struct B 4 4 - x:#6@0 => ok
tuple_struct A 4 4 - 0:#17@0; struct B 4 4 - x:#6@0 => ok
enum A 8 4 u8 - X(x:#17@4); struct B 4 4 - x:#6@0 => ok
enum A 8 4 u8 - X Y{x:#6@4} Z{x:#17@4}; struct B 4 4 - x:#6@0 => ok
struct A 24 8 - x:#17@0; list #16 => ok
struct A 24 8 epo x:#17@0; map #6 #16 => ok
struct A 16 8 - x:#18@0; slice #16; boxed_slice #17 => ok
opaque A 0 1; opaque B 0 1 .dep=+#16 .dep=-#16 .dep==#15 => ok
opaque A 0 1; opaque B 0 1 .id=1 .param=T:#16 .param=U:#15 => ok
struct A 4 4 - .id=1 .param=T:#16 x:#6@0 => refused EagerForward #16
opaque A 0 1 .dep=-#16 => refused EagerForward #16
opaque A 0 1 .dep==#16 => refused EagerForward #16
opaque A 0 1 .id=1 .param=T:#16 => refused EagerForward #16
opaque A unsized .dep=+#16 => refused EagerForward #16
enum A 1 1 u8 - .dep=+#16 X => refused EagerForward #16
enum A 1 1 u8 - .id=1 .param=T:#16 X => refused EagerForward #16
tuple_struct A 4 4 - .dep=+#16 0:#6@0 => refused EagerForward #16
opaque A 0 1 .dep=+#6 .dep=-#7 .dep==#16 => refused EagerForward #16
opaque A 0 1 .id=1 .param=T:#6 .param=U:#16 => refused EagerForward #16
opaque A 0 1 .dep=+#17; opaque B 0 1 => refused EagerForward #16
opaque A 0 1 .id=1 .param=T:#17; opaque B 0 1 => refused EagerForward #16
opaque A 0 1; opaque B 0 1 .dep=+#17; opaque C 0 1 .dep=+#18 => refused EagerForward #17
struct A 4 4 - .dep=+#17 x:#17@0; struct B 4 4 - x:#6@0 => refused EagerForward #16";

// Shapes that are inside themselves, or reach one that is.
pub const CYCLES: &str = "\
tuple_struct A 4 4 - 0:#16@0 => refused InlineCycle #16
enum A 8 8 u8 - X(x:#16@0) => refused InlineCycle #16
enum A 8 8 u8 - X Y{x:#6@4} Z{x:#6@4,y:#16@0} => refused InlineCycle #16
struct A 8 8 - x:#17@0; result #16 #6 => refused InlineCycle #16
struct A 8 8 - x:#17@0; result #6 #16 => refused InlineCycle #16
struct A 8 8 - x:#17@0; array #16 2 => refused InlineCycle #16
struct A 0 8 - x:#17@0; array #16 0 => refused InlineCycle #16
struct A 8 8 - x:#17@0; tuple #6 #16 => refused InlineCycle #16
struct A 4 4 - x:#17@0; struct B 4 4 - x:#18@0; struct C 4 4 - x:#16@0 => refused InlineCycle #16
struct A 4 4 - x:#17@0; struct B 4 4 - x:#17@0 => refused InlineCycle #17
struct A 4 4 - x:#17@0; struct B 4 4 - x:#18@0; struct C 4 4 - x:#17@0 => refused InlineCycle #17
struct A 4 4 - x:#6@0; struct B 4 4 - x:#16@0 y:#18@0; struct C 4 4 - x:#18@0 => refused InlineCycle #18
struct A 4 4 - x:#16@0; struct B 4 4 - x:#17@0 => refused InlineCycle #16
struct A 24 8 - x:#17@0; list #16; struct B 24 8 - x:#18@0 => refused InlineCycle #18
struct A 8 8 - x:#17@0; box #16; struct B 8 8 - x:#17@0 => ok
struct A 24 8 - x:#18@0; struct B 24 8 - x:#16@0; list #17 => ok
struct A 16 8 - x:#17@8 y:#18@0; option #4; box #16 => ok";

// Chains: `98 * ` stands before a draft that is there so many times, `<` is the id before a draft's own, and `>` the id
// behind it. A scalar stands at a height of 1, so a chain of 99 drafts over one reaches 100.
pub const CHAINS: &str = "\
option #0; 98 * option #< => ok
option #0; 99 * option #< => refused TooLarge #115
99 * struct A 8 8 - x:#<@0 => ok
100 * struct A 8 8 - x:#<@0 => refused TooLarge #115
98 * struct A 8 8 - x:#>@0; struct A 8 8 - x:#7@0 => ok
99 * struct A 8 8 - x:#>@0; struct A 8 8 - x:#7@0 => refused TooLarge #16
98 * enum A 16 8 u8 - X(x:#<@8); option #6 => refused FieldOutside #17
99 * enum A 16 8 u8 - X(x:#<@8); option #< => refused TooLarge #115
99 * result #< #6; result #6 #< => refused TooLarge #115
98 * result #< #6; result #6 #< => ok
99 * array #< 1 => ok
100 * array #< 1 => refused TooLarge #115
100 * array #< 0 => refused TooLarge #115
99 * tuple #< => ok
100 * tuple #< => refused TooLarge #115
99 * list #< => ok
100 * list #< => refused TooLarge #115
98 * box #<; slice #< => ok
99 * box #<; slice #< => refused TooLarge #115
99 * map #6 #< => ok
100 * map #6 #< => refused TooLarge #115
99 * set #< => refused KeyNotOrd #17
100 * set #< => refused TooLarge #115
99 * opaque A 0 1 .id=1 .param=T:#< => ok
100 * opaque A 0 1 .id=1 .param=T:#< => refused TooLarge #115
199 * opaque A 0 1 .dep=+#<; opaque A 0 1 .dep=-#< => ok";

// The same, where each draft is sealed before the next one is declared.
pub const SEALED_CHAINS: &str = "\
option #0; 98 * option #< => ok
option #0; 99 * option #< => refused TooLarge #115
99 * struct A 8 8 - x:#<@0 => ok
100 * struct A 8 8 - x:#<@0 => refused TooLarge #115
99 * list #< => ok
100 * list #< => refused TooLarge #115
99 * opaque A 0 1 .id=1 .param=T:#<; list #< => refused TooLarge #115
199 * opaque A 0 1 .dep=+#<; opaque A 0 1 .dep=-#< => ok
13 * tuple #< #< => refused TooLarge #28";

// Parts without a size.
pub const UNSIZED_PARTS: &str = "\
opaque A unsized => ok
slice #6 => ok
opaque A unsized; slice #16 => ok
slice #6; slice #16 => ok
slice #6; boxed_slice #16 => ok
opaque A unsized; opaque B 0 1 .id=1 .param=T:#16 .dep=+#16 => ok
opaque A unsized; struct B 4 4 - .id=1 .param=T:#16 x:#6@0 => ok
slice #6; struct B 0 1 - x:#16@0 => refused UnsizedPart #17
opaque A unsized; tuple_struct B 4 4 - 0:#6@0 1:#16@4 => refused UnsizedPart #17
opaque A unsized; enum B 1 1 u8 - X Y(x:#16@1) => refused UnsizedPart #17
opaque A unsized; tuple #16 => refused UnsizedPart #17
opaque A unsized; tuple #6 #16 => refused UnsizedPart #17
opaque A unsized; option #16 => refused UnsizedPart #17
opaque A unsized; result #16 #6 => refused UnsizedPart #17
opaque A unsized; result #6 #16 => refused UnsizedPart #17
opaque A unsized; array #16 3 => refused UnsizedPart #17
opaque A unsized; array #16 0 => refused UnsizedPart #17
opaque A unsized; list #16 => refused UnsizedPart #17
opaque A unsized; set #16 => refused UnsizedPart #17
opaque A unsized; map #16 #6 => refused UnsizedPart #17
opaque A unsized; map #6 #16 => refused UnsizedPart #17
opaque A unsized; box #16 => refused UnsizedPart #17
slice #6; option #16 => refused UnsizedPart #17
slice #6; list #16 => refused UnsizedPart #17
opaque A unsized; slice #16; boxed_slice #17 => refused UnsizedPart #18
slice #6; slice #16; boxed_slice #17 => refused UnsizedPart #18
struct A 0 1 - x:#17@0; opaque B unsized => refused UnsizedPart #16
opaque A unsized; box #16; struct B 8 8 - x:#17@0 => refused UnsizedPart #17";

// Keys and items. #16 is mostly a struct with equality alone.
pub const KEYS: &str = "\
set #0; set #1; set #2; set #3; set #4; set #5; set #6; set #7 => ok
set #8; set #9; set #10; set #11; set #12; set #13; set #14; set #15 => ok
struct A 4 4 epo x:#6@0; set #16; map #16 #6 => ok
struct A 4 4 - x:#6@0; set #16 => refused KeyNotOrd #17
struct A 4 4 ep x:#6@0; set #16 => refused KeyNotOrd #17
struct A 4 4 e x:#6@0; map #16 #6 => refused KeyNotOrd #17
struct A 4 4 e x:#6@0; map #6 #16 => ok
struct A 4 4 e x:#6@0; list #16; set #17 => refused KeyNotOrd #18
struct A 4 4 e x:#6@0; box #16; set #17 => refused KeyNotOrd #18
struct A 4 4 e x:#6@0; option #16; map #17 #6 => refused KeyNotOrd #18
struct A 4 4 e x:#6@0; result #16 #6; set #17 => refused KeyNotOrd #18
struct A 4 4 e x:#6@0; result #6 #16; set #17 => refused KeyNotOrd #18
struct A 4 4 e x:#6@0; array #16 2; set #17 => refused KeyNotOrd #18
struct A 4 4 e x:#6@0; array #16 0; set #17 => refused KeyNotOrd #18
struct A 4 4 e x:#6@0; tuple #6 #16; set #17 => refused KeyNotOrd #18
struct A 4 4 e x:#6@0; slice #16; boxed_slice #17; set #18 => refused KeyNotOrd #19
struct A 4 4 e x:#6@0; struct B 4 4 epo x:#16@0; set #17 => refused KeyNotOrd #18
struct A 4 4 e x:#6@0; enum B 8 4 u8 epo X Y(x:#16@4); set #17 => refused KeyNotOrd #18
struct A 4 4 e x:#6@0; box #16; list #17; option #18; map #19 #6 => refused KeyNotOrd #20
struct A 4 4 epo x:#6@0; box #16; list #17; option #18; map #19 #6 => ok
struct A 4 4 epo x:#6@0; result #16 #6; array #17 2; tuple #18; slice #19; boxed_slice #20; set #21 => ok
enum A 8 4 u8 epo X Y(x:#6@4); set #16 => ok
opaque A 0 1; set #16 => refused KeyNotOrd #17
opaque A 0 1; map #16 #6 => refused KeyNotOrd #17
opaque A 0 1; map #6 #16 => ok
opaque A 0 1; option #16; set #17 => refused KeyNotOrd #18
set #6; set #16 => refused KeyNotOrd #17
map #6 #6; set #16 => refused KeyNotOrd #17
set #6; list #16; set #17 => refused KeyNotOrd #18
set #6; list #16; map #6 #17 => ok
struct A 24 8 epo x:#17@0; list #16; set #16 => ok
struct A 24 8 ep x:#17@0; list #16; set #17 => refused KeyNotOrd #18
struct A 24 8 epo x:#17@0; set #16 => refused KeyNotOrd #17
struct A 24 8 epo x:#17@0; map #6 #16 => ok
struct A 24 8 epo x:#17@0; map #6 #16; set #16 => refused KeyNotOrd #18
scalar A u32 4 4 epo; set #16 => ok
scalar A u32 4 4 ep; set #16 => refused KeyNotOrd #17
scalar A unit 0 1 -; set #16 => refused KeyNotOrd #17
struct A 4 4 e x:#6@0; map #6 #6; set #16; map #16 #6 => refused KeyNotOrd #18";
