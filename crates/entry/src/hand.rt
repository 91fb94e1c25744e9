// What an entry hands back.
ghost use Rattle.std.specs.Prelude.{◌≡◌, [], ◌∷◌};
ghost use Rattle.slices.specs.Over.{over};

fn put_number(res: &mut [u64], i: usize, n: u64)
    ensures { res.new ≡ over res.old i (n ∷ []) }
{
    if i < res.len() {
        res[i] = n;
    }
}

// The value and the log's length, as far as there is room.
pub fn put_result(res: &mut [u64], value: u64, len: u64)
    ensures { res.new ≡ over res.old 0 (value ∷ len ∷ []) }
{
    put_number(res, 0, value);
    put_number(res, 1, len);
}
