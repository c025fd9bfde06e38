ghost use Rattle.std.specs.Prelude.{◌≤◌, length};
ghost use Rattle.instance.specs.Memory.{store_size};
ghost use Rattle.reader.specs.Promise.{ReadAnswers};

use crate::drafts::Draft;
use crate::tokens::{next_line, next_token};
use crate::words::{first_word, later_word};
use instance::{Fault, Instance, Stage};

// Reads a text into the store, line by line and token by token, up to the first token at fault. The token loop lies inside the line
// loop, and both are left by the label, since a refusal leaves them at once with its place: by hand, since each token says where
// the next begins. The bound on the store: see `over_store`.
pub fn read(text: &[u8], store: &mut [u64]) -> Result<Instance, Stage>
    requires { store_size ≤ length store.old }
    ensures { ReadAnswers text.now store.old result store.new }
{
    let mut draft = Draft::new(store);
    let mut i = 0;
    'text: loop {
        let first = next_line(text, i);
        if first.bytes.is_empty() {
            break 'text Ok(draft.counts);
        }
        let weight = match first_word(first.bytes, draft.counts.clauses, draft.counts.total) {
            Ok(weight) => weight,
            Err(fault) => break 'text Err(fault.at(first.place)),
        };
        draft.begin(weight);
        i = first.end();
        'clause: loop {
            let token = next_token(text, i);
            if token.bytes.is_empty() {
                break 'text Err(Fault::ClauseWithoutEnd.at(token.place));
            }
            i = token.end();
            match later_word(token.bytes, draft.counts.written) {
                Ok(Some(code)) => draft.keep(code),
                Ok(None) => break 'clause,
                Err(fault) => break 'text Err(fault.at(token.place)),
            }
        }
        let after = next_token(text, i);
        if !after.bytes.is_empty() {
            break 'text Err(Fault::WrongToken.at(after.place));
        }
        draft.close();
        i = after.place;
    }
}
