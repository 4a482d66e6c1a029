// Scripts of declarations with their answers, by the description of the language, in the form of the other rows.
pub const DECLARATIONS: &str = "\
shape struct A 8 4 - x:#6@0 y:#5@2 => #16
seal => refused FieldOverlap #16
put a #16 1 => no such shape
shape enum A 8 4 u8 - X(0:#6@0) => #16
seal => refused FieldOverlap #16
end

shape struct A 4 4 - .param=T:#6 x:#6@0 => refused MissingDeclId
shape struct A 4 4 - .param=T:#99999 x:#6@0 => refused MissingDeclId
shape struct A 4 4 - .id=0 .param=T:#6 x:#6@0 => refused MissingDeclId
shape struct A 4 4 - .id=1 .param=T:#6 x:#6@0 => #16
shape struct A 4 4 - .mod=a .param=T:#6 x:#6@0 => #17
shape opaque A unsized .param=T:#6 => refused MissingDeclId
shape enum A 1 1 u8 - .param=T:#6 X => refused MissingDeclId
seal => ok
shape struct A 4 4 - .id=1 .param=T:#6 x:#6@0 => #18
end

shape option #16 => no such shape
shape map #6 #16 => no such shape
shape tuple #6 #16 => no such shape
shape slice #4 => #16
shape option #16 => #17
shape box #16 => wrong shape
shape boxed_slice #17 => wrong shape
shape box #18 => no such shape
shape boxed_slice #16 => #18
shape box #18 => #19
seal => refused UnsizedPart #17
end

shape scalar Port u16 2 2 epohgf => #16
shape scalar Mute u16 2 2 - => #17
put a #16 1 => no such shape
seal => ok
put a #16 8080 => ok made [8080]
put b #16 65536 => bad text
put b #17 1 => unsupported
put c #16 => syntax
shape struct S 2 2 - x:#16@0 => #18
put s #18 1 => no such shape
seal => ok
put s #18 1 => wrong shape
put a #18 1 => taken
end dropped [8080]";

// Declarations that are none by a byte or two, and their neighbours that are.
pub const NEAR_DECLARATIONS: &str = "\
shape struct A 4 4 epohgdc x:#6@0 => #16
shape struct A 4 4 epohgdcsf x:#6@0 => #17
shape struct A 4 4 pe x:#6@0 => syntax
shape struct A 4 4 ee x:#6@0 => syntax
shape struct A 4 4 x x:#6@0 => syntax
shape struct A 4 4  x:#6@0 => syntax
shape struct A 4 4 => syntax
shape struct A 4 - x:#6@0 => syntax
shape struct A 4 4 -x:#6@0 => syntax
shape struct A 4 4 - x:#6@0  => syntax
shape struct A 4 4 - x:#6@ => syntax
shape struct A 4 4 - x:6@0 => syntax
shape struct A 4 4 - x#6@0 => syntax
shape struct A 4 4 - x:#06@0 => syntax
shape struct A 4 4 - x:#6@0!! => syntax
shape struct A 4 4 - x:#6@0! => #18
shape struct A 1000000000 4 - => syntax
shape struct A 999999999 4 - => #19
shape struct A 4 4 - .packed .repr=c => syntax
shape struct A 4 4 - .repr=c .packed => #20
shape struct A 4 4 - .packed .packed => syntax
shape struct A 4 4 - x:#6@0 .packed => syntax
shape struct A 4 4 - .repr=d => syntax
shape struct A 4 4 - .id= => syntax
shape struct A 4 4 - .mod=a: => syntax
shape struct A 4 4 - .mod=a:b => syntax
shape struct A 4 4 - .dep=#6 => syntax
shape struct A 4 4 - .dep=+#6 .base=v => syntax
shape struct A 4 4 - .mod=a::b .param=T:#6 .param=U:#7 .base=v .dep=+#6 .dep=-#7 .dep==#8 => #21
shape opaque A 4 4 .repr=c => syntax
shape opaque A 4 4 .packed => syntax
shape opaque A 4 4 - => syntax
shape opaque A 4 4 .id=3 => #22
shape opaque unsized unsized => #23
shape opaque A unsized 4 => syntax
shape opaque A => syntax
shape enum A 1 1 u8 - X() => syntax
shape enum A 4 4 u8 - X(a:#4@1,) => syntax
shape enum A 4 4 u8 - X(a:#4@1 => syntax
shape enum A 4 4 u8 - X{a:#4@1,b:#4@2} Y=-1(a:#4@1) => #24
shape enum A 1 1 u8 - X=-0 => syntax
shape enum A 1 1 u8 - X=01 => syntax
shape enum A 1 1 i64 - X=9223372036854775808 => syntax
shape enum A 8 8 i64 - X=-9223372036854775808 Y=9223372036854775807 => #25
shape enum A 1 1 u128 - X => syntax
shape enum A 1 1 - X => syntax
shape scalar A u8 1 1 - .id=1 => syntax
shape scalar A str 1 1 - => syntax
shape scalar A i128 16 16 - => #26
shape tuple => syntax
shape tuple #0 #0 #0 #0 #0 #0 #0 #0 #0 #0 #0 #0 => #27
shape tuple #0 #0 #0 #0 #0 #0 #0 #0 #0 #0 #0 #0 #0 => syntax
shape array #6 => syntax
shape array #6 1000000000 => syntax
shape option #6 #6 => syntax
shape option 6 => syntax
shape map #6 => syntax
shape vec #6 => syntax
shape => syntax
shapes option #6 => syntax
seal  => syntax
seal x => syntax
Seal => syntax
end";
