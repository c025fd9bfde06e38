ghost use Rattle.reader.specs.Survey.{SurveyAnswers};

use crate::reading::read;
use instance::{Surveyed, over_store};

// Survey: the numbers of the instance that a text is read as.
pub fn survey(text: &[u8], store: &mut [u64]) -> Surveyed
    ensures { SurveyAnswers text.now store.old result store.new }
{
    Surveyed::from(over_store(store, |store| read(text, store)))
}
