//! Words in a line, each behind a blank.
ghost use Rattle.std.specs.Prelude.{◌≡◌};
ghost use Rattle.ae_nums.specs.Writer.{Puts};
ghost use Rattle.ae_print.specs.Spaced.{spaced_word, spaced_words};

use crate::pieces::push_word;
use ae_nums::{LineWriter, Text};
use ae_ports::{Failed, Sink};

/// A word, behind a blank.
pub fn spaced_word(word: u32) -> Text
    ensures { result ≡ spaced_word word }
{
    let mut text = Text::new();
    push_word(&mut text, b" ", word);
    text
}

/// Writes words, each behind a blank.
pub fn write_spaced<K: Sink>(words: &[u32], lines: &mut LineWriter<'_, K>) -> Result<(), Failed>
    ensures { Puts K.told K.faults K.same_rest lines.old lines.new (spaced_words words.now) result }
{
    for word in words {
        lines.write(spaced_word(*word).bytes())?;
    }
    Ok(())
}
