//! Lines made by chance, for tests: of each kind, with the least and the largest numbers, lists of several lengths, and odd names.

use std::alloc::{AllocError, Global};

// A capital letter stands for one of its choices, which may have capital letters of their own. None is further than this from `F`.
const ROUNDS: usize = 5;

// Forms of lines.
const FORMS: [&str; 17] = [
    r#"{"axioms":N,"budget":L,"facts":N,"k":"head","keep":L,"repairs":R,"version":1}"#,
    r#"{"body":[A],"head":[],"k":"cq","move":null,"of":O,"parent":null}"#,
    r#"{"body":[["c",N,7],A],"head":[7],"k":"cq","move":M,"of":O,"parent":N}"#,
    r#"{"body":[A,["r",N,0,N],A],"head":[[N],0],"k":"cq","move":M,"of":O,"parent":N}"#,
    r#"{"facts":[N],"k":"conflict","member":N,"of":N}"#,
    r#"{"facts":[N,N],"k":"conflict","member":N,"of":N}"#,
    r#"{"candidate":N,"causes":C,"k":"ask","members":I,"tuple":I}"#,
    r#"{"assume":I,"k":"try","q":Q}"#,
    r#"{"clause":I,"k":"learn","n":L}"#,
    r#"{"dropped":I,"k":"core","kept":I,"n":L}"#,
    r#"{"core":L,"how":"model","k":"done"}"#,
    r#"{"core":null,"how":"refuted","k":"done"}"#,
    r#"{"core":null,"how":"spent","k":"done"}"#,
    r#"{"clauses":S,"k":"forget"}"#,
    r#"{"ar":V,"brave":V,"cores":S,"iar":V,"k":"answer","names":X,"tuple":I}"#,
    r#"{"ar":V,"brave":V,"cores":[],"iar":V,"k":"answer","names":[T],"tuple":[N]}"#,
    r#"{"answers":L,"ar":L,"brave":L,"iar":L,"k":"end","undecided":L}"#,
];

// Numbers below 2^32, and below 2^64.
const IDS: [&str; 8] = [
    "0",
    "9",
    "10",
    "2147483648",
    "4294967295",
    "G",
    "GD",
    "GDDDDDDDD",
];

const LONGS: [&str; 7] = [
    "N",
    "4294967296",
    "9223372036854775808",
    "9999999999999999999",
    "10000000000000000000",
    "18446744073709551615",
    "GDDDDDDDDDDDDDDDDDD",
];

// Parts of names as JSON has them: the escapes that are needed, a few characters of every length in UTF-8, and the last of all.
const NAME_PARTS: [&str; 16] = [
    "a",
    " ",
    "/",
    "[]",
    r#"\""#,
    r"\\",
    r"\b\f\n\r\t",
    r"\u0000",
    r"\u001f",
    "\u{7f}",
    "\u{e9}",
    "\u{7ff}",
    "\u{2028}",
    "\u{ffff}",
    "\u{1d11e}",
    "\u{10ffff}",
];

/// Chance that is the same in each run.
#[derive(Drop)]
pub struct Dice {
    state: u64,
}

impl Dice {
    /// The chance of a seed, which isn't 0.
    pub fn new(seed: u64) -> Dice {
        Dice { state: seed }
    }

    /// A number below the bound, or 0 where the bound is 0.
    pub fn below(&mut self, bound: usize) -> usize {
        self.state ^= self.state << 13;
        self.state ^= self.state >> 7;
        self.state ^= self.state << 17;
        let rest = self.state >> 33;
        (rest as usize).checked_rem(bound).unwrap_or(0)
    }

    fn one_of(&mut self, texts: &[&'static str]) -> &'static str {
        let place = self.below(texts.len());
        texts.get(place).copied().unwrap_or("")
    }
}

/// The text of a line of some kind.
pub fn made_line(alloc: Global, dice: &mut Dice) -> Result<String, AllocError> {
    let mut text = String::from_str(alloc, "F")?;
    for _ in 0..ROUNDS {
        text = with_choices(text.as_str(), alloc, dice)?;
    }
    Ok(text)
}

/// The text with one of its choices for each capital letter.
fn with_choices(text: &str, alloc: Global, dice: &mut Dice) -> Result<String, AllocError> {
    let mut out = String::new(alloc);
    for letter in text.chars() {
        let choices = choices_of(letter);
        if choices.is_empty() {
            out.push(letter)?;
        } else {
            out.push_str(dice.one_of(choices))?;
        }
    }
    Ok(out)
}

fn choices_of(letter: char) -> &'static [&'static str] {
    match letter {
        'F' => &FORMS,
        'N' => &IDS,
        'L' => &LONGS,
        'G' => &["1", "2", "3", "4", "5", "6", "7", "8", "9"],
        'D' => &["0", "1", "2", "3", "4", "5", "6", "7", "8", "9"],
        'I' => &["[]", "[N]", "[N,N]", "[N,N,N,N,N]"],
        'S' => &["[]", "[L]", "[L,L]", "[L,L,L]"],
        'C' => &["[]", "[[]]", "[I]", "[I,I,I]"],
        'X' => &["[]", "[T]", "[T,T]", "[T,T,T]"],
        'T' => &[r#""""#, r#""P""#, r#""PP""#, r#""aPaPa""#],
        'P' => &NAME_PARTS,
        'R' => &[r#""all""#, r#""pareto""#],
        'V' => &[r#""yes""#, r#""no""#, r#""undecided""#],
        'Q' => &[r#""brave""#, r#""iar""#, r#""ar""#],
        'O' => &[r#""query""#, "N"],
        'M' => &[r#"["axiom",N,N]"#, r#"["reduce",N,N]"#],
        'A' => &[r#"["c",N,B]"#, r#"["r",N,B,B]"#],
        'B' => &["N", "[N]", "null"],
        _ => &[],
    }
}
