ghost use Rattle.std.specs.Prelude.{◌≡◌, ℕ, Some, None, MatchResult};
ghost use Rattle.model.specs.Contents.{Contents};
ghost use Rattle.model.specs.Closing.{lacking, closing, Modelled};
ghost use Rattle.model.specs.Stands.{Stands};

use super::super::fault::ModelFault;
use super::super::low;
use super::super::model::Model;
use super::Draft;
use pile::live::LiveLowest;
use pile::pile::pile_over;

impl<'a> Draft<'a> {
    // Whether a record that each file has never came.
    fn lacks(&self) -> bool
        ensures { (c : Contents) → Stands self.now c → result ≡ lacking self.now.head c }
    {
        self.facts.count() < self.head.facts as usize
            || self.acts.count() < self.head.acts as usize
            || low::lacks(&self.lowest, &self.head)
            || self.text.is_none()
    }

    // The model of a file of this length, at its end.
    pub fn close(self, length: usize) -> Result<Model<'a>, ModelFault>
        ensures { (c : Contents) → Stands self.entry c → MatchResult result (λ m. (closing self.entry.head c length ≡ None) × Modelled m self.entry.head c) (λ f. closing self.entry.head c length ≡ Some f) }
    {
        if self.lacks() {
            return Err(ModelFault::Missing(length));
        }
        let Draft {
            facts,
            acts,
            lowest,
            marks,
            allowance,
            text,
            ..
        } = self;
        let Some(text) = text else {
            return Err(ModelFault::Missing(length));
        };
        let most = allowance.unwrap_or(0);
        let live = LiveLowest::new(lowest)?;
        let lock = pile_over(live, marks, most)?;
        Ok(Model {
            lock,
            facts,
            acts,
            marks,
            most,
            text,
        })
    }
}
