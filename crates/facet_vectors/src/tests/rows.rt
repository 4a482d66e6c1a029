// Scripts with their answers, by the description of the language. A row is a script: each of its lines with its
// answer behind ` => `, and then the answer to the end. An empty line stands between two rows.
pub const ROWS: &str = r#"end

put a #6 5 => ok made [5]
end dropped [5]

put a #6 4294967295 => ok made [4294967295]
put b #6 4294967296 => bad text
put b #6 +7 => ok made [7]
end dropped [4294967295, 7]

put a #6 1 => ok made [1]
put a #99 x => no such shape
eq a b => syntax
put a #6 x => taken
put b #6 x => bad text
put b #0 x => unsupported
put b #6 => syntax
 => syntax
end dropped [1]

put a #6 007 => ok made [7]
put b #6 +0 => ok made [0]
put c #6 -0 => bad text
put d #6  => bad text
put d #6 1 2 => bad text
put d #6  1 => bad text
end dropped [7, 0]

put a #15 x => bad text
put a #16 x => no such shape
put a #999999999 x => no such shape
put a #1000000000 x => syntax
put a #06 x => syntax
put a 6 x => syntax
end

put  a #6 1 => syntax
 put a #6 1 => syntax
put a  #6 1 => syntax
Put a #6 1 => syntax
end

put abcdefghijklmnopqrstuvwxyz_01234 #6 1 => ok made [1]
put abcdefghijklmnopqrstuvwxyz_012345 #6 1 => syntax
put a-b #6 1 => syntax
end dropped [1]

put s #3  => ok made [""]
put s #3 x => taken
put t #3 a"b\c => ok made ["a\"b\\c"]
end dropped ["", "a\"b\\c"]

put s #3  => ok made [""]
put t #3 a"b\c => ok made ["a\"b\\c"]
put n #14 -170141183460469231731687303715884105728 => ok made [-170141183460469231731687303715884105728]
put c #2 é => ok made ['é']
put b #1 yes => bad text
put u #0 x => unsupported
end dropped ["", "a\"b\\c", -170141183460469231731687303715884105728, 'é']

put a #1 true => ok made [true]
put b #1 false => ok made [false]
put c #1 yes => bad text
put c #1 True => bad text
put c #1 true  => bad text
put c #1 1 => bad text
put c #1  => bad text
end dropped [true, false]

put a #4 0 => ok made [0]
put b #4 255 => ok made [255]
put c #4 256 => bad text
put c #4 -0 => bad text
end dropped [0, 255]

put a #5 0 => ok made [0]
put b #5 65535 => ok made [65535]
put c #5 65536 => bad text
put c #5 -1 => bad text
end dropped [0, 65535]

put a #6 0 => ok made [0]
put b #6 4294967295 => ok made [4294967295]
put c #6 4294967296 => bad text
put c #6 -0 => bad text
end dropped [0, 4294967295]

put a #7 0 => ok made [0]
put b #7 18446744073709551615 => ok made [18446744073709551615]
put c #7 18446744073709551616 => bad text
put c #7 -1 => bad text
end dropped [0, 18446744073709551615]

put a #8 0 => ok made [0]
put b #8 340282366920938463463374607431768211455 => ok made [340282366920938463463374607431768211455]
put c #8 340282366920938463463374607431768211456 => bad text
put c #8 -0 => bad text
end dropped [0, 340282366920938463463374607431768211455]

put a #9 0 => ok made [0]
put b #9 18446744073709551615 => ok made [18446744073709551615]
put c #9 18446744073709551616 => bad text
put c #9 -1 => bad text
end dropped [0, 18446744073709551615]

put a #10 127 => ok made [127]
put b #10 -128 => ok made [-128]
put c #10 128 => bad text
put c #10 -129 => bad text
end dropped [127, -128]

put a #11 32767 => ok made [32767]
put b #11 -32768 => ok made [-32768]
put c #11 32768 => bad text
put c #11 -32769 => bad text
end dropped [32767, -32768]

put a #12 2147483647 => ok made [2147483647]
put b #12 -2147483648 => ok made [-2147483648]
put c #12 2147483648 => bad text
put c #12 -2147483649 => bad text
end dropped [2147483647, -2147483648]

put a #13 9223372036854775807 => ok made [9223372036854775807]
put b #13 -9223372036854775808 => ok made [-9223372036854775808]
put c #13 9223372036854775808 => bad text
put c #13 -9223372036854775809 => bad text
end dropped [9223372036854775807, -9223372036854775808]

put a #14 170141183460469231731687303715884105727 => ok made [170141183460469231731687303715884105727]
put b #14 -170141183460469231731687303715884105728 => ok made [-170141183460469231731687303715884105728]
put c #14 170141183460469231731687303715884105728 => bad text
put c #14 -170141183460469231731687303715884105729 => bad text
end dropped [170141183460469231731687303715884105727, -170141183460469231731687303715884105728]

put a #15 9223372036854775807 => ok made [9223372036854775807]
put b #15 -9223372036854775808 => ok made [-9223372036854775808]
put c #15 9223372036854775808 => bad text
put c #15 -9223372036854775809 => bad text
end dropped [9223372036854775807, -9223372036854775808]

put a #10 +0 => ok made [0]
put b #10 -0 => ok made [0]
put c #10 -007 => ok made [-7]
put d #10  => bad text
put d #10 + => bad text
put d #10 - => bad text
put d #10 +-1 => bad text
put d #10 --1 => bad text
put d #10 1  => bad text
put d #10 1.0 => bad text
put d #10 0x1 => bad text
end dropped [0, 0, -7]"#;

// Rows with bytes that a source file shows badly.
pub const ROWS_WITH_ESCAPES: &str = "\
put a #2 \0 => ok made ['\\0']
put b #2 \x01 => ok made ['\\u{1}']
put c #2 \x1f => ok made ['\\u{1f}']
put d #2   => ok made [' ']
put e #2 ~ => ok made ['~']
put f #2 \x7f => ok made ['\\u{7f}']
put g #2 \u{80} => ok made ['\u{80}']
put h #2 \u{10ffff} => ok made ['\u{10ffff}']
put i #2  => bad text
put i #2 ab => bad text
put i #2 e\u{301} => bad text
end dropped ['\\0', '\\u{1}', '\\u{1f}', ' ', '~', '\\u{7f}', '\u{80}', '\u{10ffff}']

put a #2 \t => ok made ['\\t']
put b #2 \r => ok made ['\\r']
put c #2 \\ => ok made ['\\\\']
put d #2 ' => ok made ['\\'']
put e #2 \" => ok made ['\"']
end dropped ['\\t', '\\r', '\\\\', '\\'', '\"']

put a #3  => ok made [\"\"]
put b #3   => ok made [\" \"]
put c #3 \t\r\0\\\" => ok made [\"\\t\\r\\0\\\\\\\"\"]
put d #3 'é\x0b\x7f => ok made [\"'é\\u{b}\\u{7f}\"]
end dropped [\"\", \" \", \"\\t\\r\\0\\\\\\\"\", \"'é\\u{b}\\u{7f}\"]

put a #6 1\r => bad text
put a #10 \u{663} => bad text
end";
