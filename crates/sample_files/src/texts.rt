//! The texts that code files of tests are made of, each a line with its name.
/// Changes of a file by their names. A line that begins with a number sign says what the next is for.
pub static TEXTS: &str = "# the base host
HOST: slot 1 name DEMO kind 1 address 1 length 18; slot 7 name UTIL kind 3; at 300 2A; \
demo-code 1; records 2; PUBLDEF COUNT value 3; EOFMARK next 8
# the base library
LIBRARY: slot 2 name UTIL kind 3 address 1 length 24; util-code 1 2; records 2; \
PUBLREF COUNT at 1; PRIVREF STATE words 4 at 4; EOFMARK next 0
# what a host with the base host's segments is linked to where no operand and no size changes: the two
# codes are as they were, but for the unit's segment number
LINKED_SEGMENTS: slot 1 name DEMO kind 0 address 1 length 18; \
slot 7 name UTIL kind 0 address 2 length 24; at 300 2A; demo-code 1; util-code 2 7
# the data size and the operands of what the base pair is linked to
LINKED_OPERANDS: word 1 4 18; code 2 1 8003; code 2 4 800A
# what the base host has where it wants a second unit too
WANTS_AUX: slot 8 name AUX kind 3
# what the base library has where there is a second unit in it, which is like the first
HAS_AUX: size 2560; slot 3 name AUX kind 3 address 3 length 24; util-code 3 3; records 4; \
PUBLREF COUNT at 1; PRIVREF STATE words 4 at 4; EOFMARK next 0
# what the linked base pair has beside its two segments where the second unit is linked too, but for
# the second unit's operands and the data size that its private variable takes
LINKED_SECOND: size 2048; slot 8 name AUX kind 0 address 3 length 24; util-code 3 8
# what the library of two units has where the first uses the second in place of the host's definition
# and of a private variable: its byte 2 is the segment number of the second
USES_AUX: records 2; UNITREF AUX at 2; EOFMARK next 0
# the data size and the operands of what the base host is linked to with it: the second unit is added
# in slot 8
LINKED_USER: word 1 4 18; code 2 2 08; code 3 2 03; code 3 5 0A
# a library whose unit has nine operands, whose bytes are 128 and 0, and one record for them, whose list
# has two pieces; the words that the list does not use are not 0
NINE_LIBRARY: slot 2 name UTIL kind 3 address 1 length 44; \
code 1 0 AB8000AB8000AB8000AB8000AB8000AB8000AB8000AB8000AB8000D7; \
code 1 28 AD000000000006002400010002000201; records 2; \
PUBLREF COUNT at 1 4 7 10 13 16 19 22 25; EOFMARK next 0; at 1058 FFFFFFFFFFFFFFFFFFFFFFFFFFFF
# the unit of what the base host is linked to with it
NINE_UNIT: slot 7 length 44; code 2 0 AB8003AB8003AB8003AB8003AB8003AB8003AB8003AB8003AB8003D7; \
code 2 28 AD000000000006002400010002000701
# a library whose unit's code is longer than a block, with an operand at bytes 511 and 512, which lie in
# two blocks
LONG_LIBRARY: size 2048; slot 2 name UTIL kind 3 address 1 length 530; fill 512 510 D7; \
code 1 510 A580FFD7AD000000000006000A02010002000201; records 3; PUBLREF COUNT at 511; \
EOFMARK next 0
# the unit of what the base host is linked to with it
LONG_UNIT: size 2048; slot 7 length 530; fill 1024 510 D7; \
code 2 510 A58102D7AD000000000006000A02010002000701
# what the base host has where it holds its unit itself, with one public reference
HAS_UNIT: size 2560; slot 7 name UTIL kind 3 address 3 length 24; util-code 3 7; records 4; \
PUBLREF COUNT at 1; EOFMARK next 0
# the operand of what it is linked to
LINKED_REFERENCE: code 2 1 8003
# what the host with its unit in place has where the unit is like the base library's
LIKE_LIBRARY: util-code 3 2; records 4; PUBLREF COUNT at 1; PRIVREF STATE words 4 at 4; \
EOFMARK next 0
# parts of libraries that differ from the base library, and of what they are linked to
ZEROS_IN_THE_CODE: word 1 6 0
ZEROS_IN_THE_LINKED_CODE: word 2 6 0
SHORT: size 511
NO_CODE: slot 2 length 0
KIND_5: slot 2 kind 5
NO_NAMES: fill 64 128 00; size 512
NAMES_NOBODY: slot 2 name AUX; util-code 1 3; records 2; PUBLREF COUNT at; UNITREF NOBODY at 2; \
EOFMARK next 0
# what a host has that is filled up with segments that are linked already, from slot 8 to slot 14
FILLED_TO_14: size 1541; code 3 0 0102030405; slot 8 name TOOLS kind 0 address 3 length 5; \
slot 9 name TOOLS kind 0 address 3 length 5; slot 10 name TOOLS kind 0 address 3 length 5; \
slot 11 name TOOLS kind 0 address 3 length 5; slot 12 name TOOLS kind 0 address 3 length 5; \
slot 13 name TOOLS kind 0 address 3 length 5; slot 14 name TOOLS kind 0 address 3 length 5
# a library of five units that share one code, and what it has where there are eleven; they have no
# records but an end mark
FIVE_UNITS: slot 0 name AUX kind 3 address 1 length 24; \
slot 1 name AUX kind 3 address 1 length 24; slot 2 name AUX kind 3 address 1 length 24; \
slot 3 name AUX kind 3 address 1 length 24; slot 4 name AUX kind 3 address 1 length 24; \
names 64 A B C D E; util-code 1 2; records 2; EOFMARK next 0
SIX_MORE: slot 5 name AUX kind 3 address 1 length 24; \
slot 6 name AUX kind 3 address 1 length 24; slot 7 name AUX kind 3 address 1 length 24; \
slot 8 name AUX kind 3 address 1 length 24; slot 9 name AUX kind 3 address 1 length 24; \
slot 10 name AUX kind 3 address 1 length 24; names 64 A B C D E F G H I J K
# what a host has that has its own segment alone, whose records name each of these units after a
# definition, without any reference
NAMES_ELEVEN: slot 7 name - kind 0 address 0 length 0; records 2; PUBLDEF COUNT value 3; \
UNITREF A at; UNITREF B at; UNITREF C at; UNITREF D at; UNITREF E at; UNITREF F at; \
UNITREF G at; UNITREF H at; UNITREF I at; UNITREF J at; UNITREF K at; EOFMARK next 8
# what it is linked to with that library where nine are named: each slot from 7 on has one, in a block of
# its own
LINKED_NINE: size 5632; at 300 2A; slot 1 name DEMO kind 0 address 1 length 18; demo-code 1; \
slot 7 name AUX kind 0 address 2 length 24; util-code 2 7; \
slot 8 name AUX kind 0 address 3 length 24; util-code 3 8; \
slot 9 name AUX kind 0 address 4 length 24; util-code 4 9; \
slot 10 name AUX kind 0 address 5 length 24; util-code 5 10; \
slot 11 name AUX kind 0 address 6 length 24; util-code 6 11; \
slot 12 name AUX kind 0 address 7 length 24; util-code 7 12; \
slot 13 name AUX kind 0 address 8 length 24; util-code 8 13; \
slot 14 name AUX kind 0 address 9 length 24; util-code 9 14; \
slot 15 name AUX kind 0 address 10 length 24; util-code 10 15; names 120 A B C D E F G H I";
