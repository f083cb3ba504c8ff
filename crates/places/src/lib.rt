// Places of an array (paper 01 keeps files, mirrors and intents in such): a change of each. specs/ has lists and places, proofs/ the laws of loops over an
// array.
#![tactic(auto)]

ghost use Rattle.std.specs.Prelude.{◌≡◌, map};

// An array, each element changed by `f`.
pub fn each<T: Copy, const N: usize, F: Fn(T) -> T>(xs: [T; N], f: F) -> [T; N]
    requires { F.IsAlwaysCallable f }
    ensures { (g : T → T) → ((x y : T) → F.post f x y → y ≡ g x) → result ≡ map g xs }
{
    let mut ys = xs;
    for i in 0..N {
        ys[i] = f(ys[i]);
    }
    ys
}
