// A point is taken.
ghost use Rattle.std.specs.Prelude.{◌≡◌, ◌≢◌, length};
ghost use Rattle.model.specs.Answers.{insertion_number};
ghost use Rattle.model.specs.Numbers.{insertion_no, insertion_said};
ghost use Rattle.model.specs.Told.{inserted_told};
ghost use Rattle.model.specs.Denstream.{has_place, insert_of};
ghost use Rattle.den_placement.specs.Placing.{Ready};
ghost use Rattle.denstream.specs.View.{view};
ghost use Rattle.denstream.specs.Inside.Placed.{placed_by};

use crate::stream::DenStream;
use den_placement::{Placed, Target, outliers_held, potential_held};
use model::{InsertError, Inserted};

impl DenStream {
    // The micro-cluster with the point goes to its target, and the labels are cleared.
    fn put(&mut self, placed: Placed)
        requires { Ready placed.target (view self.old).held }
        ensures { view self.new ≡ placed_by self.old placed }
    {
        let np = potential_held(self.potential_count);
        let no = outliers_held(self.potential_count, self.outlier_count);
        match placed.target {
            Target::Potential(place) => self.potential[place] = placed.micro,
            Target::Promotion(place) => {
                self.outlier_count = den_pool::without(&mut self.outliers[..no], place);
                self.potential[np] = placed.micro;
                self.potential_count = np + 1;
            }
            Target::Outlier(place) => self.outliers[place] = placed.micro,
            Target::Newborn => {
                self.outliers[no] = placed.micro;
                self.outlier_count = no + 1;
            }
        }
        self.label_count = 0;
    }

    // The questions in order; a point that none refuses is put at its place, and the clock ticks.
    fn insert(&mut self, x: &[f64]) -> Result<(), InsertError>
        ensures told { inserted_told view (record { answer = result; stream = self.new }) ≡ insert_of (view self.old) x.now }
        ensures kept { insertion_number result ≢ 0 → self.new ≡ self.old }
    {
        let dim = self.dim();
        // In an array, as a mean's coordinates are. Made after the questions, it had the compiler keep one more copy of the stream.
        let point = model::padded(x);
        // Those about the point and the clock; the last one, for a place, is asked of the placement.
        model::insertion_asked(dim, x.len(), self.t, true)?;
        let placement = den_placement::place(
            self.potential(),
            self.outliers(),
            &self.params,
            self.t,
            &point[..dim],
        );
        let Ok(placed) = placement.placed else {
            return Err(InsertError::NoPlace);
        };
        self.put(placed);
        self.advance(placement.near);
        Ok(())
    }

    // The stream after the point; a refused stream is the one that came. dbstream has one like it, over an `insert` of its own; the
    // definition and the laws of both are one, the model's `Kind`.
    pub fn try_insert(mut self, x: &[f64]) -> Inserted<DenStream>
        ensures result_value { inserted_told view result ≡ insert_of (view self) x.now }
        ensures kept { insertion_number result.answer ≢ 0 → result.stream ≡ self }
        ensures said { insertion_said result.answer
            ≡ insertion_no (view self).params.settings.dim (length x.now) (view self).t (has_place (view self) x.now) }
    {
        let answer = self.insert(x);
        Inserted {
            answer,
            stream: self,
        }
    }
}
