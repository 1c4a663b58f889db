//! Two fences, and what was observed of the timelines.
use crate::answer::Answer;
use crate::made::Made;
use sf_base::Fence;
use std::str::SplitWhitespace;
use test_words::point;

impl Made {
    /// Does what a line says of fences.
    pub fn fence(&mut self, form: &str, words: &mut SplitWhitespace<'_>) -> Option<Answer> {
        match form {
            "new" => {
                self.fence = Fence::none();
                self.other = Fence::none();
                self.seen.values = [0; 64];
            }
            "merge" => self.fence.merge(self.alloc, &self.other).ok()?,
            "open" => return Some(Answer::Open(self.fence.first_open(&self.seen))),
            _ => self.tell(form, words)?,
        }
        Some(Answer::Done)
    }

    /// Adds a point to a fence, or observes a timeline.
    fn tell(&mut self, form: &str, words: &mut SplitWhitespace<'_>) -> Option<()> {
        let (timeline, value) = point(words)?;
        match form {
            "add" => self.fence.add(self.alloc, timeline, value).ok()?,
            "other" => self.other.add(self.alloc, timeline, value).ok()?,
            "seen" => self.seen.values[timeline.0 as usize - 1] = value,
            _ => return None,
        }
        Some(())
    }
}
