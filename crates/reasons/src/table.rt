// Words looked up in texts: lists of words, and tables in which names and forms take turns.
ghost use Rattle.std.specs.Prelude.{◌≡◌};
ghost use Rattle.script_lex.specs.Words.{words_at, first};
ghost use Rattle.script_lex.specs.Left.{left};
ghost use Rattle.reasons.specs.Reasons.{listed, form_of};

use script_lex::lex::Words;

// Whether the first word is one of the list.
pub fn is_listed(words: Words, list: &[u8]) -> bool
    ensures { result ≡ listed (words_at list.now 0) (first (left words.entry)) }
{
    Words::of(list).any(|name| words.is(name))
}

// The form that the first word names, an empty one if it names none. Not a `for` over the table, since a row has two words.
pub fn form_of<'a>(words: Words, table: &'a [u8]) -> &'a [u8]
    ensures { result.now ≡ form_of (words_at table.now 0) (first (left words.entry)) }
{
    let mut rows = Words::of(table);
    while !rows.is_end() {
        let form = rows.rest();
        if words.is(rows.first()) {
            return form.first();
        }
        rows = form.rest();
    }
    &[]
}
