// One object, named by its kind and key as lists and the Rust's calls name it.
ghost use Rattle.std.specs.Prelude.{◌≡◌};
ghost use Rattle.waits.specs.Object.{exited, valid, available, owned_by, taken};

use words::layout;

// Whether the thread has exited.
#[tactic(auto, unfolding(crate::specs::Object::exited))]
pub fn is_exited(w: &[u64], id: u64) -> bool
    ensures { result ≡ exited w.now id }
{
    threads::is_known(w, id)
        && words::get_in(w, layout::thread_at(id), layout::STATE) == threads::EXITED
}

// Whether there is such an object.
#[tactic(auto, unfolding(crate::specs::Object::valid))]
pub fn is_valid(w: &[u64], kind: u64, key: u64) -> bool
    ensures { result ≡ valid w.now kind key }
{
    match kind {
        objects::THREAD => threads::is_known(w, key),
        _ => objects::place_of(w, kind, key).is_some(),
    }
}

// Whether it can be taken: a mutex without owner, a signaled event or timer, an exited thread.
#[tactic(auto, unfolding(crate::specs::Object::available))]
pub fn is_available(w: &[u64], kind: u64, key: u64) -> bool
    ensures { result ≡ available w.now kind key }
{
    match kind {
        objects::THREAD => is_exited(w, key),
        objects::MUTEX => objects::place_of(w, kind, key).is_some_and(|at| words::get_in(
            w,
            at,
            layout::OWNER,
        ) == 0),
        _ => objects::place_of(w, kind, key).is_some_and(|at| words::get_in(w, at, layout::SIGNALED)
            != 0),
    }
}

// Whether it is a mutex that the thread owns.
#[tactic(auto, unfolding(crate::specs::Object::owned_by))]
pub fn is_owned_by(w: &[u64], id: u64, kind: u64, key: u64) -> bool
    ensures { result ≡ owned_by w.now id kind key }
{
    kind == objects::MUTEX
        && objects::place_of(w, kind, key).is_some_and(|at| words::get_in(w, at, layout::OWNER)
            == id)
}

// Taking sets a mutex's owner and clears an auto-reset event or timer.
#[tactic(auto, unfolding(crate::specs::Object::taken))]
pub fn take(w: &mut [u64], id: u64, kind: u64, key: u64)
    ensures { w.new ≡ taken w.old id kind key }
{
    let Some(at) = objects::place_of(w, kind, key) else {
        return;
    };
    if kind == objects::MUTEX {
        words::put_in(w, at, layout::OWNER, id);
    } else if words::get_in(w, at, layout::MANUAL) == 0 {
        words::put_in(w, at, layout::SIGNALED, 0);
    }
}
