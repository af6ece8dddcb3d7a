//! What usual command lines ask for.

ghost use Rattle.fq_app_words.specs.CommandLines.{PairsAreAskedFor, InterleavedPairsAreAskedFor};

/// `PE F R FP FU RP RU STEPS..` and `IL I FP FU RP RU STEPS..` ask for exactly these names and
/// steps, with the defaults of all options, if no name and no step begins with a hyphen.
///
/// Options may come before the files, in any order, but none of them twice. Values that are texts
/// must not begin with a hyphen either, and the others are numbers of 64 bits in decimal digits.
/// What is asked for then has these values.
pub fn usual_command_lines()
    ensures pairs { PairsAreAskedFor }
    ensures interleaved { InterleavedPairsAreAskedFor }
{}
