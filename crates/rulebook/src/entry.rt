use super::answer::Tags;
use super::question::Question;

/// The tags that were allowed, remembered under their question.
#[derive(Clone, Copy, Debug, Default)]
pub struct Entry {
    pub question: Question,
    pub tags: Tags,
}
