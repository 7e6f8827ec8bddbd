//! The prelude.

/// The text of the prelude, whose names are in scope in every program.
pub const PRELUDE: &[u8] = b"\
-- data Bool, with False and True, is built in
data Maybe a = Nothing | Just a
type String = [Char]
otherwise = True
not b = if b then False else True
id x = x
const x y = x
flip f x y = f y x
(f . g) x = f (g x)
f $ x = f x
fst (x, _) = x
snd (_, y) = y
abs x = if x < 0 then negate x else x
min x y = if x <= y then x else y
max x y = if x <= y then y else x
even n = mod n 2 == 0
odd n = mod n 2 /= 0
head (x : _) = x
tail (_ : xs) = xs
null [] = True
null _ = False
length [] = 0
length (_ : xs) = 1 + length xs
[] ++ ys = ys
(x : xs) ++ ys = x : (xs ++ ys)
(x : xs) !! n = if n == 0 then x else xs !! (n - 1)
map _ [] = []
map f (x : xs) = f x : map f xs
filter _ [] = []
filter p (x : xs) = if p x then x : filter p xs else filter p xs
foldr _ z [] = z
foldr f z (x : xs) = f x (foldr f z xs)
foldl _ z [] = z
foldl f z (x : xs) = foldl f (f z x) xs
sum [] = 0
sum (x : xs) = x + sum xs
product [] = 1
product (x : xs) = x * product xs
concat [] = []
concat (x : xs) = x ++ concat xs
concatMap _ [] = []
concatMap f (x : xs) = f x ++ concatMap f xs
zip (x : xs) (y : ys) = (x, y) : zip xs ys
zip _ _ = []
zipWith f (x : xs) (y : ys) = f x y : zipWith f xs ys
zipWith _ _ _ = []
take n xs = if n <= 0 then [] else takeSome n xs
takeSome _ [] = []
takeSome n (x : xs) = x : take (n - 1) xs
drop n xs = if n <= 0 then xs else dropSome n xs
dropSome _ [] = []
dropSome n (_ : xs) = drop (n - 1) xs
reverse xs = foldl (flip (:)) [] xs
replicate n x = if n <= 0 then [] else x : replicate (n - 1) x
enumFromTo a b = if a > b then [] else if a == b then [a] else a : enumFromTo (a + 1) b
";
