// A point is taken.
ghost use Rattle.std.specs.Prelude.{◌≡◌, ◌≢◌, length};
ghost use Rattle.model.specs.Answers.{insertion_number};
ghost use Rattle.model.specs.Numbers.{insertion_no, insertion_said};
ghost use Rattle.model.specs.Told.{inserted_told};
ghost use Rattle.model.specs.Dbstream.{tick_of, has_place, insert_of};
ghost use Rattle.dbstream.specs.View.{view};
ghost use Rattle.dbstream.specs.Inside.Placed.{placed_by, told_of};

use crate::stream::DbStream;
use db_neighbours::Scan;
use model::{InsertError, Inserted};

impl DbStream {
    // The point joins the micro-clusters, the links of its neighbours gain, and the labels go.
    fn place(&mut self, scan: &Scan, x: &[f64])
        ensures { view self.new ≡ placed_by self.old scan.now x.now }
    {
        let t = self.t;
        let r = self.params.settings.r;
        let lambda = self.params.settings.lambda;
        let micros = &mut self.micros;
        db_neighbours::with_point(
            micros,
            &mut self.count,
            &mut self.next_id,
            scan,
            x,
            r,
            lambda,
            t,
        );
        let ids = scan.neighbours();
        self.link_count = db_gains::gain_pairs(&mut self.links, self.link_count, ids, lambda, t);
        self.label_count = 0;
    }

    // The point is taken, and the clock ticks.
    fn take(&mut self, scan: &Scan, x: &[f64])
        ensures { view self.new ≡ tick_of (placed_by self.old scan.now x.now) (told_of self.old scan.now x.now) }
    {
        self.place(scan, x);
        self.advance(scan.nearest);
    }

    // The questions in order; a point that none refuses is taken.
    fn insert(&mut self, x: &[f64]) -> Result<(), InsertError>
        ensures told { inserted_told view (record { answer = result; stream = self.new }) ≡ insert_of (view self.old) x.now }
        ensures kept { insertion_number result ≢ 0 → self.new ≡ self.old }
    {
        let dim = self.dim();
        // In an array, as a mean's coordinates are.
        let point = model::padded(x);
        let point = &point[..dim];
        let scan = db_neighbours::scan_for(self.held(), point, dim, self.params.settings.r);
        let place = scan.has_place(self.count);
        model::insertion_asked(dim, x.len(), self.t, place)?;
        self.take(&scan, point);
        Ok(())
    }

    // The stream after the point; a refused stream is the one that came. In denstream too, over its own private `insert`.
    pub fn try_insert(mut self, x: &[f64]) -> Inserted<DbStream>
        ensures result_value { inserted_told view result ≡ insert_of (view self) x.now }
        ensures kept { insertion_number result.answer ≢ 0 → result.stream ≡ self }
        ensures said { insertion_said result.answer
            ≡ insertion_no (view self).params.settings.dim (length x.now) (view self).t (has_place (view self) x.now) }
    {
        let answer = self.insert(x);
        Inserted {
            answer,
            stream: self,
        }
    }
}
