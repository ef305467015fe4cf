//! A push to a list that has spare capacity: it neither allocates nor fails.
ghost use Rattle.std.specs.Prelude.{◌≡◌, suc, ◌<◌, ◌≤◌, [], ◌∷◌, ◌++◌, vec_len, vec_capacity};

pub(crate) fn put<T: Drop>(list: &mut Vec<T>, x: T)
    requires { vec_len list.old < vec_capacity list.old }
    ensures items { list.new.items ≡ list.old.items ++ x ∷ [] }
    ensures len { vec_len list.new ≡ suc (vec_len list.old) }
    ensures capacity { vec_capacity list.old ≤ vec_capacity list.new }
{
    match list.push(x) {
        Ok(()) => {}
        Err(_) => unreachable!(),
    }
}
