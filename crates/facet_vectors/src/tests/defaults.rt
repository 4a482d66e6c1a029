// Scripts of defaults with their answers, by the description of the language, in the form of the other rows.
pub const DEFAULTS: &str = r#"default a #0 => ok
default b #1 => ok made [false]
default c #2 => ok made ['\0']
default d #3 => ok made [""]
default e #4 => ok made [0]
default f #8 => ok made [0]
default g #15 => ok made [0]
end dropped [false, '\0', "", 0, 0, 0]

default a #16 => no such shape
default a #1000000000 => syntax
default a #06 => syntax
default a => syntax
default a #6 x => syntax
default a #6  => syntax
default  a #6 => syntax
default #6 => syntax
default a #6 => ok made [0]
default a #6 => taken
default a #16 => no such shape
put b #6 7 => ok made [7]
shape option #6 => #16
default b #16 => no such shape
default c #16 => no such shape
seal => ok
default b #16 => taken
default c #16 => ok
put c #6 1 => taken
end dropped [0, 7]

shape result #6 #6 => #16
shape struct S 12 4 d n:#6@0 r:#16@4 => #17
seal => ok
default a #17 => unsupported made [0] dropped [0]
put a #6 3 => ok made [3]
end dropped [3]

shape list #6 => #16
shape option #16 => #17
shape tuple #6 => #18
shape array #6 4 => #19
shape slice #4 => #20
shape boxed_slice #20 => #21
shape box #20 => wrong shape
shape box #6 => #22
shape map #3 #6 => #23
shape set #3 => #24
shape array #18 0 => #25
shape array #18 1 => #26
shape array #16 3 => #27
seal => ok
put x #4 1 => ok made [1]
put y #4 2 => ok made [2]
default z #19 => ok made [0, 0, 0, 0]
default l #16 => ok
default o #17 => ok
default t #18 => unsupported
default s #20 => unsupported
default u #21 => unsupported
default v #22 => unsupported
default m #23 => ok
default n #24 => ok
default p #25 => ok
default q #26 => unsupported
default r #27 => ok
end dropped [1, 2, 0, 0, 0, 0]

shape result #0 #0 => #16
shape struct Inner 32 8 d s:#3@0 b:#1@24 r:#16@25 => #17
shape struct Outer 40 8 d n:#6@0 i:#17@8 c:#2@4 => #18
shape array #17 2 => #19
seal => ok
default a #18 => unsupported made ["", false, 0] dropped ["", false, 0]
default a #17 => unsupported made ["", false] dropped ["", false]
default a #19 => unsupported made ["", false] dropped ["", false]
default a #16 => unsupported
end

shape enum E 1 1 u8 - A => #16
shape option #16 => #17
shape struct P 8 4 d n:#6@0 e:#17@4 => #18
shape struct O 8 4 d b:#6@4 a:#1@0 => #19
shape struct Q 4 4 e n:#6@0 => #20
shape struct Z 0 1 d => #21
shape tuple_struct T 8 4 d 0:#18@0 => #22
seal => ok
default e #16 => unsupported
default p #18 => ok made [0]
default o #19 => ok made [0, false]
default q #20 => unsupported
default z #21 => ok
default t #22 => ok made [0]
end dropped [0, 0, false, 0]

shape scalar Port u16 2 2 epohgf => #16
shape scalar Named String 24 8 ed => #17
shape opaque H 8 8 => #18
shape struct U 16 8 d n:#6@0 h:#18@8 => #19
seal => ok
default a #16 => unsupported
default a #17 => ok made [""]
default b #18 => unsupported
default b #19 => unsupported made [0] dropped [0]
end dropped [""]"#;
