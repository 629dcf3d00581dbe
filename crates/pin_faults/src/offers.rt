// Words that are offered if they break a rule.
ghost use Rattle.std.specs.Prelude.{◌≡◌};
ghost use Rattle.std.specs.Bool.{then_some};
ghost use Rattle.std.specs.Option.{option_to_list};
ghost use Rattle.model_words.specs.Words.{earliest_word, earliest_after, word_port};

use model_words::{Earliest, Word};

/// Offers a word, if it breaks the rule.
pub fn offer_if<'a>(earliest: &mut Earliest<'a>, breaks: bool, word: Word<'a>)
    ensures { earliest_word earliest.new
        ≡ earliest_after (earliest_word earliest.old) (
        option_to_list (then_some breaks (word_port word.entry))
        ) }
{
    if breaks {
        earliest.offer(word);
    }
}
