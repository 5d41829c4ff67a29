// What a new link asks of the darts of each pair: 16.
ghost use Rattle.std.specs.Prelude.{◌≡◌, ℕ, ◌+◌, ◌<◌, ◌≤◌, length, nat_lt};
ghost use Rattle.paper.specs.Below.{all_below};
ghost use Rattle.paper.specs.Map.{eq_row};
ghost use Rattle.paper.specs.Table.{owned_at};
ghost use Rattle.paper.specs.Sew.{implies};
ghost use Rattle.span.specs.Row.{RowIn};
ghost use Rattle.fault.specs.Fault.{PlacesFit};
ghost use Rattle.orbit.specs.Sparse.{queue};
ghost use Rattle.sew.specs.Pairs.{Pairs};
ghost use Rattle.sew.specs.Sewing.{agrees};

// A link along axis m may lead to another row.
fn rows_agree(spans: &[i32], m: usize, axis: usize, d: usize, e: usize) -> bool
    requires { RowIn spans.now d × RowIn spans.now e }
    ensures { result ≡ implies (nat_lt axis m) (eq_row (owned_at spans.now d) (owned_at spans.now e)) }
{
    m <= axis || span::same_row(spans, d, e)
}

// The darts of pair q agree. A link along axis 0 may lead to another place as well.
fn pair_agrees(
    places: &[i32],
    spans: &[i32],
    w: &[u16],
    m: usize,
    n: usize,
    axis: usize,
    q: usize,
) -> bool
    requires places_fit { PlacesFit places.now m n × ((d : ℕ) → d < n → RowIn spans.now d) }
    requires pair { (q < n) × (n + n + n ≤ length w.now) }
    requires darts { (queue n w.now q < n) × (queue (n + n) w.now q < n) }
    ensures { result ≡ agrees places.now spans.now m axis (queue n w.now q) (queue (n + n) w.now q) }
{
    let d = kernel::get(w, n + q);
    let e = kernel::get(w, n + n + q);
    fault::places::agree(places, m, n, axis, d, e) && rows_agree(spans, m, axis, d, e)
}

// The darts of each of the first t pairs agree.
pub fn all_agree(
    places: &[i32],
    spans: &[i32],
    w: &[u16],
    m: usize,
    n: usize,
    axis: usize,
    t: usize,
) -> bool
    requires places_fit { PlacesFit places.now m n × ((d : ℕ) → d < n → RowIn spans.now d) }
    requires pairs { Pairs n w.now t × (n + n + n ≤ length w.now) }
    ensures { result ≡ all_below t (λ q. agrees places.now spans.now m axis (queue n w.now q) (queue (n + n) w.now q)) }
{
    (0..t).all(|q| pair_agrees(places, spans, w, m, n, axis, q))
}
