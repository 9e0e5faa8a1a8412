// What the labels tell: a point's label, the labels themselves, and how many clusters they name.
ghost use Rattle.std.specs.Prelude.{◌≡◌};
ghost use Rattle.std.specs.List.{list_any};
ghost use Rattle.model.specs.ReadOut.{labels_read, same_family, clusters_in};
ghost use Rattle.readout.specs.Told.{labels_told};

use model::TooShort;

// The labels into a slice that has a place for each.
pub fn read_labels(labels: &[i64], out: &mut [i64]) -> Result<(), TooShort>
    ensures { labels_told result out.new ≡ labels_read labels.now out.old }
{
    if out.len() < labels.len() {
        return Err(TooShort);
    }
    out[..labels.len()].copy_from_slice(labels);
    Ok(())
}

// Whether both are one cluster's; -1 is no cluster's.
fn same_family(a: &i64, b: &i64) -> bool
    ensures { result ≡ same_family a.now b.now }
{
    0 <= *a && *a == *b
}

// Whether a cluster's label stands among these.
fn stands_in(label: &i64, labels: &[i64]) -> bool
    ensures { result ≡ list_any (same_family label.now) labels.now }
{
    labels.iter().any(|other| same_family(label, other))
}

// How many different labels there are, -1 left out: each is counted where it stands last.
pub fn n_clusters(labels: &[i64]) -> usize
    ensures { result ≡ clusters_in labels.now }
{
    let mut n = 0;
    for (i, label) in labels.iter().enumerate() {
        if same_family(label, label) && !stands_in(label, &labels[i + 1..]) {
            n += 1;
        }
    }
    n
}
