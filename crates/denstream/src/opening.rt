// A stream is opened.
ghost use Rattle.std.specs.Prelude.{min, ◌≡◌};
ghost use Rattle.feature.specs.Feature.{max_dim};
ghost use Rattle.model.specs.Answers.{opening_number};
ghost use Rattle.model.specs.Numbers.{den_opening_no};
ghost use Rattle.model.specs.Told.{opened_told};
ghost use Rattle.model.specs.Denstream.{fresh, open_of};
ghost use Rattle.model.specs.Denstream as doc;
ghost use Rattle.den_pool.specs.Held.{with_dim};
ghost use Rattle.denstream.specs.View.{view};

use crate::stream::DenStream;
use drift::DriftMonitor;
use model::{Body, DenMicro, DenParams, DenSettings, MICROS, OpenError, Opened};

// What both streams ask, then one question more: is beta * mu above 1?
fn asked(settings: DenSettings) -> Result<(), OpenError>
    ensures { result ≡ doc.asked settings }
{
    model::asked(
        settings.dim,
        settings.eps,
        settings.lambda,
        settings.beta,
        settings.mu,
    )?;
    if 1.0 < settings.beta * settings.mu {
        return Ok(());
    }
    Err(OpenError::BetaMu)
}

impl DenStream {
    // No micro-cluster or label, an empty window, no alarm, clock 0.
    fn fresh(settings: DenSettings) -> Self
        ensures { view result ≡ fresh (with_dim settings (min settings.dim max_dim)) }
    {
        let micro = DenMicro {
            body: Body::new(),
            t0: 0.0,
        };
        let bm = settings.beta * settings.mu;
        let params = DenParams {
            settings,
            eps2: settings.eps * settings.eps,
            bm,
            tp: model::tp(settings.lambda, bm),
        };
        DenStream {
            params,
            t: 0.0,
            potential: [micro; MICROS],
            potential_count: 0,
            outliers: [micro; MICROS],
            outlier_count: 0,
            labels: [-1; MICROS],
            label_count: 0,
            drift: DriftMonitor::new(settings.eps),
        }
    }

    // The questions in order: the first no decides. Beside a refusal stands a stream whose settings are all 0. dbstream has one like
    // it, as `asked` and `fresh` are each stream's own; the definition and the laws of both are one, the model's `Kind`.
    pub fn new(settings: DenSettings) -> Opened<DenStream>
        ensures result_value { opened_told view result ≡ open_of settings }
        ensures said { opening_number result.answer ≡ den_opening_no settings }
    {
        let answer = asked(settings);
        let kept = if answer.is_ok() {
            settings
        } else {
            DenSettings::default()
        };
        let stream = DenStream::fresh(kept);
        Opened { answer, stream }
    }
}
