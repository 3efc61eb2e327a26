//! A code for each kind of doubt.

// The words that tell a kind at their start, and its code.
const BEGINNINGS: &[(&str, &str)] = &[
    ("no primitive is named ", "no-primitive"),
    ("no form is named ", "no-form"),
    ("the result does not fit", "no-result"),
    ("( is never closed", "unclosed"),
    (") ends no call", "ends-nothing"),
];

// The words that tell a kind wherever they stand, and its code.
const WORDS: &[(&str, &str)] = &[
    (" is not used: ", UNUSED),
    (" has no number, ", "no-number"),
    (" is nowhere in the form ", "nowhere"),
    (" begun and never ended", "unended"),
    (" is a form: call it by cl", "form-uncalled"),
    (" names no block", "no-block"),
];

/// The code of an argument that is not used.
pub(crate) const UNUSED: &str = "unused";

/// The code of other words.
const OTHER: &str = "doubt";

/// The code of a doubt that is told in these words.
pub(crate) fn code_of(words: &str) -> &'static str {
    for (beginning, code) in BEGINNINGS {
        if words.starts_with(*beginning) {
            return *code;
        }
    }
    for (part, code) in WORDS {
        if words.contains(*part) {
            return *code;
        }
    }
    OTHER
}
