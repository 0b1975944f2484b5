//! Plays calls of the library, one a line, and prints what each answers. The script tests/engines/library.sh plays the
//! same lists in node.
//!
//! A line that begins with `#` is a comment, and what stands in a line from ` => ` on is the answer that it wants, which
//! isn't read here. A line's answer is a value, `throws KIND`, `throws VALUE` or `leaves NUMBER`. A value that is answered is put into the
//! next slot, whose number begins with 0 in each realm. The lines are:
//!
//! - `realm 5 HOST ..` or `realm 6` begins a fresh realm, and `hosts` answers how many hosts there are;
//! - `object PROTOTYPE`, `array ITEM ..`, `arguments ITEM ..` and `namespace` make an object;
//! - `function gives VALUE`, `function throws VALUE`, `function turns VALUE VALUE`, `function receiver` and
//!   `function argument INDEX` make a function, which gives two values by turns, or as the word says, and each call of which is printed before the answer, and whose prototype is a further word's;
//! - `define OBJECT KEY VALUE WRITABLE CONFIGURABLE` and `accessor OBJECT KEY GETTER SETTER CONFIGURABLE` define a property;
//! - `seal OBJECT` prevents extensions, and `record OBJECT KEY` records a key of a static member that is inherited;
//! - `read VALUE KEY`, `write VALUE KEY VALUE` and `delete VALUE KEY` do that to a property;
//! - `binary OPERATOR VALUE VALUE` and `unary OPERATOR VALUE` apply an operator;
//! - `new VALUE` and `extends VALUE` ask whether that is a constructor and a heritage;
//! - `prim VALUE` gives a value out as a primitive and takes it back, and `prims VALUE ..` counts primitives that are given out;
//! - `seen VALUE` answers what is seen of it if it is thrown, and `error KIND` makes an error;
//! - `prototype VALUE` answers the prototype of what a function makes whose `prototype` it is, and `global NAME` reads a global name;
//! - `put OBJECT KEY VALUE` defines a property as a literal does, and `length OBJECT NUMBER NUMBER` writes an array's length that an object gave, by the numbers of its two conversions;
//! - `call NUMBER THIS ARGUMENT ..` calls the function of this number in the table of the library.
//!
//! A value is `u`, `n`, `t`, `f`, `#NUMBER`, `'TEXT`, `$SLOT` or `@OBJECT`, an object of the library; `_` is a hole. A key is
//! `'TEXT`, or `*` for Symbol.iterator. In a text, `~` and four hexadecimal digits are a unit.
#![tactic(auto)]

mod facts;
mod operate;
mod outcome;
mod play;
mod realm;
mod show;
mod words;

use play::Play;
use std::io;

/// What a line asks for, without the answer that it wants.
fn asked(line: &str) -> &str {
    match line.split_once(" => ") {
        Some((asked, _)) => asked,
        None => line,
    }
}

fn main(rt: HostRuntime) -> io::Result<()> {
    let mut play = Play::new(rt.alloc())?;
    for line in rt.lines(rt.alloc()) {
        let line = line?;
        if line.as_str().starts_with("#") {
            continue;
        }
        let answer = play.answer(rt.alloc(), asked(line.as_str()))?;
        println!(rt; "{answer}")?;
    }
    Ok(())
}
