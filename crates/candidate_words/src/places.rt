// Candidates ranked where they lie. The best of a run are kept as places in it, and nothing is unpacked or copied before the list is
// written: words that fit stand in rank order as the candidates that they hold do.
ghost use Rattle.std.specs.Prelude.{◌≡◌, [], true, ℕ, ◌+◌, ◌≤◌, ◌<◌, length};
ghost use Rattle.std.proofs.Math.Seq.{slice};
ghost use Rattle.refusal.specs.Refusal.{code_of};
ghost use Rattle.rank.specs.Ranked.{left_out, sink_of, insert_all, pack, unpack};
ghost use Rattle.rank.specs.Calls.{ranking_of, outcome_of};
ghost use Rattle.candidate_words.specs.Candidates.{ranked_words};
ghost use Rattle.candidate_words.specs.Fits.{run_fits, ranking_fitted};
ghost use Rattle.candidate_words.specs.Runs.{run_of};
ghost use Rattle.candidate_words.specs.Answers.{ranking_words};
ghost use Rattle.candidate_words.specs.Places.{lower_of, candidate_of, list_of, Fit, Inside, row_of, checked_of, words_at, eight_of, unmoved_of, Tried, merged_of, Merged};

use refusal::Refusal;

// A ranked list holds at most so many.
const PLACES: usize = 4;

// A run holds at most so many candidates.
const MOST: usize = 288;

// The first `len` of four places in a run, in rank order of what lies there. Those past them say nothing. It is an array with a length beside,
// as there is no heap and the C interface has four candidates and their count.
#[derive(Clone, Copy)]
pub struct Places {
    pub len: usize,
    pub at: [usize; PLACES],
}

// Whether the words of one candidate come before those of another: at the first that differs, the lower. By `<` of the arrays the proof stayed
// open: the library's order of lists is another term than `lex`, by which rank order is defined.
fn lower(a: &[u64; 11], b: &[u64; 11]) -> bool
    ensures { result ≡ lower_of a.now b.now }
{
    for i in 0..11 {
        if a[i] != b[i] {
            return a[i] < b[i];
        }
    }
    false
}

// Whether four places are taken and candidate `c` does not stand before the last: then there is none for it.
fn left_out(run: &[[u64; 11]], p: Places, c: usize) -> bool
    requires { Inside run.now p × Fit run.now c }
    ensures { result ≡ left_out (list_of run.now p) (candidate_of run.now c) }
{
    p.len == PLACES && !lower(&run[c], &run[p.at[3]])
}

// Candidate `c` goes down the places, and whichever of two stands later goes on, until one is left out: at a candidate of its own port, or
// past the last place.
fn sink(run: &[[u64; 11]], p: Places, c: usize) -> Places
    requires { Inside run.now p × Fit run.now c }
    ensures inside { Inside run.now result }
    ensures list { list_of run.now result ≡ sink_of (list_of run.now p) (candidate_of run.now c) }
{
    let port = run[c][9];
    let n = p.len;
    let mut at = p.at;
    let mut x = c;
    for i in 0..n {
        let y = at[i];
        if lower(&run[x], &run[y]) {
            at[i] = x;
            x = y;
        }
        if run[y][9] == port {
            return Places { len: n, at };
        }
    }
    if n < PLACES {
        at[n] = x;
        return Places { len: n + 1, at };
    }
    Places { len: n, at }
}

// No places yet.
fn none() -> Places
    ensures { (result.len ≡ 0) × (length result.at ≡ 4) }
{
    Places {
        len: 0,
        at: [0; PLACES],
    }
}

// Places with each candidate more from `from` up to `to`. Most of a long run are left out, and nothing is touched for those.
fn fill(run: &[[u64; 11]], p: Places, from: usize, to: usize) -> Places
    requires { Inside run.now p × (from ≤ to) × (to ≤ length run.now) × ((i : ℕ) → from ≤ i → i < to → Fit run.now i) }
    ensures inside { Inside run.now result }
    ensures list { list_of run.now result ≡ insert_all (list_of run.now p) (slice from to (run_of run.now)) }
{
    let mut q = p;
    for i in from..to {
        if !left_out(run, q, i) {
            q = sink(run, q, i);
        }
    }
    q
}

// What ranking a run answers: 17 where it is too long, 8 where a port is none of the clock's, then 18 where a word does not fit.
fn checked(run: &[[u64; 11]]) -> Result<(), Refusal>
    ensures { result ≡ checked_of run.now }
{
    if MOST < run.len() {
        return Err(Refusal::Many);
    }
    let mut whole = true;
    for w in run {
        if !refusal::is_port(words::port_of(w[9])) {
            return Err(Refusal::Port);
        }
        whole = whole & crate::fits::one_fits(w);
    }
    if whole {
        return Ok(());
    }
    Err(Refusal::Field)
}

// The words at place `k` of four, zeros where it is not used.
fn words_at(run: &[[u64; 11]], p: Places, k: usize) -> [u64; 11]
    requires { Inside run.now p × (k < 4) }
    ensures { result ≡ row_of run.now p k }
{
    if k < p.len {
        let i = p.at[k];
        return run[i];
    }
    [0; 11]
}

// The list that places stand for, copied once.
fn put(out: &mut [u64; 45], run: &[[u64; 11]], p: Places)
    requires { Inside run.now p }
    ensures { out.new ≡ ranked_words (pack (unpack (list_of run.now p))) }
{
    let a = words_at(run, p, 0);
    let b = words_at(run, p, 1);
    let c = words_at(run, p, 2);
    let d = words_at(run, p, 3);
    *out = [
        p.len as u64,
        a[0],
        a[1],
        a[2],
        a[3],
        a[4],
        a[5],
        a[6],
        a[7],
        a[8],
        a[9],
        a[10],
        b[0],
        b[1],
        b[2],
        b[3],
        b[4],
        b[5],
        b[6],
        b[7],
        b[8],
        b[9],
        b[10],
        c[0],
        c[1],
        c[2],
        c[3],
        c[4],
        c[5],
        c[6],
        c[7],
        c[8],
        c[9],
        c[10],
        d[0],
        d[1],
        d[2],
        d[3],
        d[4],
        d[5],
        d[6],
        d[7],
        d[8],
        d[9],
        d[10],
    ];
}

// The ranked list of a run of candidates, eleven words each, in words. They come in any order and may be repeated.
pub fn rank_run(run: &[[u64; 11]], out: &mut [u64; 45]) -> u64
    ensures answer { result ≡ code_of (outcome_of (ranking_fitted (run_fits run.now) (ranking_of (run_of run.now)))) }
    ensures words { out.new ≡ ranking_words (ranking_fitted (run_fits run.now) (ranking_of (run_of run.now))) out.old }
{
    let x = checked(run);
    match x {
        Err(y) => refusal::answer(y),
        Ok(()) => {
            let p = fill(run, none(), 0, run.len());
            put(out, run, p);
            0
        }
    }
}

// The eleven words of a list from `b` on.
fn row(w: &[u64; 45], b: usize) -> [u64; 11]
    requires { b + 11 ≤ 45 }
    ensures { result ≡ words_at w.now b }
{
    [
        w[b],
        w[b + 1],
        w[b + 2],
        w[b + 3],
        w[b + 4],
        w[b + 5],
        w[b + 6],
        w[b + 7],
        w[b + 8],
        w[b + 9],
        w[b + 10],
    ]
}

// The candidates of two lists as one run of eight.
fn eight(a: &[u64; 45], b: &[u64; 45]) -> [[u64; 11]; 8]
    ensures { result ≡ eight_of a.now b.now }
{
    [
        row(a, 1),
        row(a, 12),
        row(a, 23),
        row(a, 34),
        row(b, 1),
        row(b, 12),
        row(b, 23),
        row(b, 34),
    ]
}

// Whether the candidates from `from` up to `to` are valid, and their words fit.
fn all_fit(run: &[[u64; 11]], from: usize, to: usize) -> bool
    requires { (from ≤ to) × (to ≤ length run.now) }
    ensures { result ≡ true → (i : ℕ) → from ≤ i → i < to → Fit run.now i }
{
    for i in from..to {
        if !refusal::is_port(words::port_of(run[i][9])) {
            return false;
        }
        if !crate::fits::one_fits(&run[i]) {
            return false;
        }
    }
    true
}

// Whether there are `n` places, and they are those from `from` on in their order.
fn unmoved(p: Places, from: usize, n: usize) -> bool
    requires { from ≤ 4 }
    ensures { result ≡ unmoved_of p from n }
{
    let at = p.at;
    (p.len == n)
        & ((n <= 0) | (at[0] == from))
        & ((n <= 1) | (at[1] == from + 1))
        & ((n <= 2) | (at[2] == from + 2))
        & ((n <= 3) | (at[3] == from + 3))
}

// The list of `n` candidates from the first on and `m` from the fifth on, where each are a ranked list: they are where ranking them moves none.
// Where they are not, nothing is written.
fn merge_run(run: &[[u64; 11]], n: usize, m: usize, out: &mut [u64; 45]) -> bool
    requires { (length run.now ≡ 8) × (n ≤ 4) × (m ≤ 4) }
    ensures { Tried run.now n m result out.old out.new }
{
    let first = all_fit(run, 0, n);
    let second = all_fit(run, 4, 4 + m);
    if !(first & second) {
        return false;
    }
    let p = fill(run, none(), 0, n);
    let q = fill(run, none(), 4, 4 + m);
    if !(unmoved(p, 0, n) & unmoved(q, 4, m)) {
        return false;
    }
    let r = fill(run, p, 4, 4 + m);
    put(out, run, r);
    true
}

// Two lists merged where they lie, if nothing is refused of them; if anything is, nothing is written.
fn merge_quickly(a: &[u64; 45], b: &[u64; 45], out: &mut [u64; 45]) -> bool
    ensures { Merged a.now b.now result out.old out.new }
{
    if (4 < a[0]) | (4 < b[0]) {
        return false;
    }
    let run = eight(a, b);
    merge_run(&run, a[0] as usize, b[0] as usize, out)
}

// The ranked list of all that two ranked lists were ranked of, in words. What is refused of them, the engine's own merging says.
pub fn merge_lists(a: &[u64; 45], b: &[u64; 45], out: &mut [u64; 45]) -> u64
    ensures answer { result ≡ code_of (outcome_of (merged_of a.now b.now)) }
    ensures words { out.new ≡ ranking_words (merged_of a.now b.now) out.old }
{
    if merge_quickly(a, b, out) {
        return 0;
    }
    let m = rank::merge(
        crate::candidates::ranked_of(a),
        crate::candidates::ranked_of(b),
    );
    let first = crate::fits::list_fits(a);
    let second = crate::fits::list_fits(b);
    let x = crate::fits::ranking_fitted(m, first & second);
    crate::answers::put_ranking(out, x)
}
