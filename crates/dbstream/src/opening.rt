// A stream is opened.
ghost use Rattle.std.specs.Prelude.{min, ◌≡◌};
ghost use Rattle.feature.specs.Feature.{max_dim};
ghost use Rattle.model.specs.Answers.{opening_number};
ghost use Rattle.model.specs.Numbers.{db_opening_no};
ghost use Rattle.model.specs.Told.{opened_told};
ghost use Rattle.model.specs.Dbstream.{fresh, open_of};
ghost use Rattle.dbstream.specs.View.{view, with_dim};

use crate::stream::DbStream;
use drift::DriftMonitor;
use model::{Body, DbMicro, DbParams, DbSettings, LINKS, Link, MICROS, MicroId, Opened};

impl DbStream {
    // No micro-cluster, link or label, an empty window, no alarm, clock 0.
    fn fresh(settings: DbSettings) -> Self
        ensures { view result ≡ fresh (with_dim settings (min settings.dim max_dim)) }
    {
        let id = MicroId(0);
        let micro = DbMicro {
            body: Body::new(),
            id,
        };
        let link = Link {
            lo: id,
            hi: id,
            value: 0.0,
            last: 0.0,
        };
        let params = DbParams {
            settings,
            t_gap: model::t_gap(settings.lambda),
            floor: model::floor(settings.lambda),
        };
        DbStream {
            params,
            t: 0.0,
            next_id: id,
            micros: [micro; MICROS],
            count: 0,
            links: [link; LINKS],
            link_count: 0,
            labels: [0; MICROS],
            label_count: 0,
            drift: DriftMonitor::new(settings.r),
        }
    }

    // The questions in order: the first no decides. Beside a refusal stands a stream whose settings are all 0. In denstream too, with
    // its own settings and its own `fresh`.
    pub fn new(settings: DbSettings) -> Opened<DbStream>
        ensures result_value { opened_told view result ≡ open_of settings }
        ensures said { opening_number result.answer ≡ db_opening_no settings }
    {
        let answer = model::asked(
            settings.dim,
            settings.r,
            settings.lambda,
            settings.alpha,
            settings.min_weight,
        );
        let kept = if answer.is_ok() {
            settings
        } else {
            DbSettings::default()
        };
        let stream = DbStream::fresh(kept);
        Opened { answer, stream }
    }
}
