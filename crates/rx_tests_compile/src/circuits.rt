//! The circuits that are compiled.
use std::alloc::{AllocError, Global};

/// The message bits and the width of a circuit.
pub(crate) struct Shape {
    pub(crate) space: u32,
    pub(crate) width: u32,
}

/// One block, some blocks, and as many bits as there may be, in both spaces.
pub(crate) const SHAPES: [Shape; 6] = [
    Shape { space: 2, width: 2 },
    Shape { space: 2, width: 8 },
    Shape {
        space: 2,
        width: 64,
    },
    Shape { space: 3, width: 3 },
    Shape { space: 3, width: 9 },
    Shape {
        space: 3,
        width: 63,
    },
];

/// A circuit of every word but for line 1. `@` stands for the width, `#` for the message bits, `&` for the word of the
/// inputs a and b.
const EVERY_WORD: &str = "\
& a @
& b @
inw n @
inbit c
in e
inbit d
const three 3
constw two @ 2
out a
add o0 a b
sub o1 a b
mul o2 a b
min o3 a b
max o4 a b
neg o5 a
and o6 a b
or o7 a b
xor o8 a b
not o9 a
and p0 c d
or p1 c d
xor p2 c d
not p3 c
shl q0 a 0
shl q1 a 1
shl q2 a @
shr q3 a 0
shr q4 a 1
shr q5 a 255
shlv q6 a n
shrv q7 a n
eq r0 a b
ne r1 a b
lt r2 a b
le r3 a b
gt r4 a b
ge r5 a b
select r6 c a b
cast s0 # a
casts s1 # a
cast s2 60 a
casts s3 60 a
cast s4 # c
casts s5 # c
sub t0 three e
mul t1 o1 o5
out d
out three
out two
out o0
out o1
out o2
out o3
out o4
out o5
out o6
out o7
out o8
out o9
out p0
out p1
out p2
out p3
out q0
out q1
out q2
out q3
out q4
out q5
out q6
out q7
out r0
out r1
out r2
out r3
out r4
out r5
out r6
out s0
out s1
out s2
out s3
out s4
out s5
out t0
out t1
";

/// The text of the circuit of every word, for inputs a and b of this word.
pub(crate) fn every_word(alloc: Global, shape: &Shape, word: &str) -> Result<String, AllocError> {
    let mut text = format!(in alloc; "bits {} {}\n", shape.space, shape.width)?;
    for letter in EVERY_WORD.chars() {
        match letter {
            '@' => text.push_str(&format!(in alloc; "{}", shape.width)?)?,
            '#' => text.push_str(&format!(in alloc; "{}", shape.space)?)?,
            '&' => text.push_str(word)?,
            _ => text.push(letter)?,
        }
    }
    Ok(text)
}

/// A circuit of 64 bits with so many products, each of the one before it.
pub(crate) fn products(alloc: Global, count: u32) -> Result<String, AllocError> {
    let mut text = format!(in alloc; "bits 2 64\nin p0\n")?;
    for place in 0..count {
        text.push_str(&format!(in alloc; "mul p{} p{place} p0\n", u64::from(place) + 1)?)?;
    }
    Ok(text)
}

/// The text of a circuit of a quotient and what is left.
pub(crate) fn division(alloc: Global, shape: &Shape) -> Result<String, AllocError> {
    let mut text = format!(in alloc; "bits {} {}\n", shape.space, shape.width)?;
    text.push_str("in a\nin b\ndiv q a b\nrem r a b\nout q\nout r\n")?;
    Ok(text)
}

/// A circuit of 64 bits with so many quotients, each of the one before it.
pub(crate) fn quotients(alloc: Global, count: u32) -> Result<String, AllocError> {
    let mut text = format!(in alloc; "bits 2 64\nin p0\n")?;
    for place in 0..count {
        text.push_str(&format!(in alloc; "div p{} p{place} p0\n", u64::from(place) + 1)?)?;
    }
    Ok(text)
}

/// The circuits of the examples.
pub(crate) const EXAMPLES: [&str; 6] = [
    "\
bits 2 24
ins opening 24
ins salary 24
ins rent 24
ins repair 24
ins refund 24
const nothing 0
casts zero 24 nothing
add after_salary opening salary
add after_rent after_salary rent
add after_repair after_rent repair
add closing after_repair refund
min lowest_of_two after_salary after_rent
min lowest_of_three lowest_of_two after_repair
min lowest lowest_of_three closing
lt was_overdrawn lowest zero
out closing
out lowest
out was_overdrawn
",
    "\
bits 2 16
in anna
in ben
in cleo
in dan
constw one 4 1
constw two 4 2
constw three 4 3
constw four 4 4
gt ben_leads ben anna
max of_two anna ben
select leader_of_two ben_leads two one
gt cleo_leads cleo of_two
max of_three of_two cleo
select leader_of_three cleo_leads three leader_of_two
gt dan_leads dan of_three
max best of_three dan
select winner dan_leads four leader_of_three
out best
out winner
",
    "\
bits 2 20
in income
inw age 8
inbit resident
constw adult 8 18
constw retired 8 67
const least 24000
ge is_adult age adult
lt is_working_age age retired
ge earns_enough income least
and of_age is_adult is_working_age
and may_apply of_age resident
and eligible may_apply earns_enough
out eligible
",
    "\
bits 2 16
in total
in count
div price total count
rem left total count
out price
out left
",
    "\
bits 2 16
in exam
in homework
in project
const exam_weight 4
const homework_weight 1
const project_weight 3
mul exam_part exam exam_weight
mul homework_part homework homework_weight
mul project_part project project_weight
add two_parts exam_part homework_part
add total two_parts project_part
shr score total 3
const pass_mark 60
ge passed score pass_mark
out score
out passed
",
    "\
bits 2 32
in income
const first_end 16000
const second_end 48000
const three 3
min first_part income first_end
max from_first income first_end
min to_second from_first second_end
sub second_part to_second first_end
max from_second income second_end
sub third_part from_second second_end
shr first_tax first_part 3
shr second_tax second_part 2
mul three_times third_part three
shr third_tax three_times 3
add two_taxes first_tax second_tax
add tax two_taxes third_tax
sub left income tax
out tax
out left
",
];
